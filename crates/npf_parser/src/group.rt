// Groups of rules: a function for each line of the grammar.
ghost use Rattle.std.specs.Prelude.{◌≡◌, Ok};
ghost use Rattle.npf_phrase.specs.Grammar.{meaning, optional};
ghost use Rattle.npf_phrase.specs.Phrase.{head as first_of};
ghost use Rattle.npf_parser_values.specs.Answer.{Answers};
ghost use Rattle.npf_parser.specs.Rule.{item, layer, head, items, ends_item};
ghost use Rattle.npf_parser.specs.Stmt.{group};

use crate::rule::{direction_of, read_on, read_rule};
use npf_lexer::{Sign, Token};
use npf_parser_values::{
    Stop, after_sign, after_word, behind_separator, behind_sign, behind_word, is_at_separator,
    read_name_string, read_string, span_to,
};
use npf_syntax::{GroupHead, ItemTree, Stmt};
use npf_types::{List, Span};
use std::alloc::Global;

#[tactic(auto, unfolding(crate::specs::Rule::item))]
fn read_item<'a>(alloc: Global, tokens: &'a [Token]) -> Result<(ItemTree, &'a [Token]), Stop<'a>>
    ensures { Answers ((meaning item).read tokens.now) result }
{
    match behind_word("ruleset", tokens) {
        Some(rest) => {
            let (name, rest) = read_name_string(alloc, rest)?;
            let (dir, rest) = direction_of(rest);
            let (on, rest) = read_on(alloc, rest)?;
            let span = span_to(tokens, rest);
            Ok((
                ItemTree::Ruleset {
                    name,
                    dir,
                    on,
                    span,
                },
                rest,
            ))
        }
        None => {
            let (rule, rest) = read_rule(alloc, tokens)?;
            let span = span_to(tokens, rest);
            Ok((ItemTree::Rule { rule, span }, rest))
        }
    }
}

fn layer_of(tokens: &[Token]) -> (Option<Span>, &[Token])
    ensures { (meaning (optional layer)).read tokens.now ≡ Ok (result.0, result.1.now) }
{
    match behind_word("layer-2", tokens) {
        Some(rest) => (Some(span_to(tokens, rest)), rest),
        None => (None, tokens),
    }
}

#[tactic(auto, unfolding(crate::specs::Rule::head))]
fn read_head<'a>(alloc: Global, tokens: &'a [Token]) -> Result<(GroupHead, &'a [Token]), Stop<'a>>
    ensures { Answers ((meaning head).read tokens.now) result }
{
    match behind_word("default", tokens) {
        Some(rest) => {
            let (layer, rest) = layer_of(rest);
            let span = span_to(tokens, rest);
            Ok((GroupHead::Default { layer, span }, rest))
        }
        None => {
            let (name, rest) = read_string(alloc, tokens)?;
            let (dir, rest) = direction_of(rest);
            let (layer, rest) = layer_of(rest);
            let (on, rest) = read_on(alloc, rest)?;
            let span = span_to(tokens, rest);
            Ok((
                GroupHead::Named {
                    name,
                    dir,
                    layer,
                    on,
                    span,
                },
                rest,
            ))
        }
    }
}

/// Whether an item between braces ends here.
pub(crate) fn ends_item(tokens: &[Token]) -> bool
    ensures { result ≡ ends_item (first_of tokens.now) }
{
    is_at_separator(tokens) || behind_sign(Sign::CloseBrace, tokens).is_some()
}

/// Items with separators between them.
fn read_items<'a>(
    alloc: Global,
    tokens: &'a [Token],
) -> Result<(List<ItemTree>, &'a [Token]), Stop<'a>>
    ensures { Answers ((meaning items).read tokens.now) result }
{
    let mut items = Vec::new(alloc);
    let mut rest = tokens;
    'items: loop {
        if ends_item(rest) {
            match behind_separator(rest) {
                Some(next) => rest = next,
                None => return Ok((List::of_vec(items), rest)),
            }
        } else {
            let (item, behind) = read_item(alloc, rest)?;
            items.push(item)?;
            match behind_separator(behind) {
                Some(next) => rest = next,
                None => return Ok((List::of_vec(items), behind)),
            }
        }
    }
}

#[tactic(auto, unfolding(crate::specs::Stmt::group))]
pub(crate) fn read_group<'a>(
    alloc: Global,
    tokens: &'a [Token],
) -> Result<(Stmt, &'a [Token]), Stop<'a>>
    ensures { Answers ((meaning group).read tokens.now) result }
{
    let rest = after_word("group", tokens)?;
    let (head, rest) = read_head(alloc, rest)?;
    let rest = after_sign(Sign::OpenBrace, rest)?;
    let (items, rest) = read_items(alloc, rest)?;
    let rest = after_sign(Sign::CloseBrace, rest)?;
    let span = span_to(tokens, rest);
    Ok((Stmt::Group { head, items, span }, rest))
}
