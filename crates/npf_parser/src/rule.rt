// Rules: a function for each line of the grammar.
ghost use Rattle.std.specs.Prelude.{◌≡◌, ◌<◌, IfSome, Ok, codes, length};
ghost use Rattle.npf_phrase.specs.Grammar.{meaning, optional, preceded};
ghost use Rattle.npf_parser_values.specs.Answer.{Answers, AnswersAlone, Begins, GoesOn};
ghost use Rattle.npf_parser_values.specs.Token.{quoted, string};
ghost use Rattle.npf_parser.specs.Rule.{answer, action, stateful, direction, ends_walk, on, relation, relations, owner_word, owner_name, owner, rule};

use crate::filter::read_filter;
use npf_lexer::{Sign, Token, TokenKind};
use npf_parser_values::{Stop, behind_sign, behind_word, read_iface, read_string, span_to};
use npf_syntax::{BlockReturn, Boxed, Direction, IfaceTree, RuleAction, RuleTree, Stateful, Str};
use npf_types::Span;
use std::alloc::Global;

#[tactic(auto, unfolding(crate::specs::Rule::answer))]
fn answer_of(tokens: &[Token]) -> (Option<BlockReturn>, &[Token])
    ensures { (meaning (optional answer)).read tokens.now ≡ Ok (result.0, result.1.now) }
{
    if let Some(rest) = behind_word("return", tokens) {
        let span = span_to(tokens, rest);
        return (Some(BlockReturn::Return { span }), rest);
    }
    if let Some(rest) = behind_word("return-rst", tokens) {
        let span = span_to(tokens, rest);
        return (Some(BlockReturn::ReturnRst { span }), rest);
    }
    if let Some(rest) = behind_word("return-icmp", tokens) {
        let span = span_to(tokens, rest);
        return (Some(BlockReturn::ReturnIcmp { span }), rest);
    }
    (None, tokens)
}

#[tactic(auto, unfolding(crate::specs::Rule::action))]
fn read_action(tokens: &[Token]) -> Result<(RuleAction, &[Token]), Stop>
    ensures { AnswersAlone ((meaning action).read tokens.now) result }
{
    if let Some(rest) = behind_word("block", tokens) {
        let (answer, rest) = answer_of(rest);
        let span = span_to(tokens, rest);
        return Ok((RuleAction::Block { answer, span }, rest));
    }
    match behind_word("pass", tokens) {
        Some(rest) => {
            let span = span_to(tokens, rest);
            Ok((RuleAction::Pass { span }, rest))
        }
        None => Err(Stop::Before(tokens)),
    }
}

#[tactic(auto, unfolding(crate::specs::Rule::stateful))]
fn stateful_of(tokens: &[Token]) -> (Option<Stateful>, &[Token])
    ensures { (meaning (optional stateful)).read tokens.now ≡ Ok (result.0, result.1.now) }
{
    if let Some(rest) = behind_word("stateful", tokens) {
        let span = span_to(tokens, rest);
        return (Some(Stateful::Stateful { span }), rest);
    }
    if let Some(rest) = behind_word("stateful-all", tokens) {
        let span = span_to(tokens, rest);
        return (Some(Stateful::StatefulAll { span }), rest);
    }
    (None, tokens)
}

#[tactic(auto, unfolding(crate::specs::Rule::direction))]
pub(crate) fn direction_of(tokens: &[Token]) -> (Option<Direction>, &[Token])
    ensures { (meaning (optional direction)).read tokens.now ≡ Ok (result.0, result.1.now) }
{
    if let Some(rest) = behind_word("in", tokens) {
        let span = span_to(tokens, rest);
        return (Some(Direction::In { span }), rest);
    }
    if let Some(rest) = behind_word("out", tokens) {
        let span = span_to(tokens, rest);
        return (Some(Direction::Out { span }), rest);
    }
    (None, tokens)
}

#[tactic(auto, unfolding(crate::specs::Rule::ends_walk))]
fn final_of(tokens: &[Token]) -> (bool, &[Token])
    ensures { (meaning ends_walk).read tokens.now ≡ Ok (result.0, result.1.now) }
{
    match behind_word("final", tokens) {
        Some(rest) => (true, rest),
        None => (false, tokens),
    }
}

#[tactic(auto, unfolding(crate::specs::Rule::on))]
pub(crate) fn read_on<'a>(
    alloc: Global,
    tokens: &'a [Token],
) -> Result<(Option<Boxed<IfaceTree>>, &'a [Token]), Stop<'a>>
    ensures { Answers ((meaning (optional on)).read tokens.now) result }
{
    match behind_word("on", tokens) {
        Some(rest) => {
            let (iface, rest) = read_iface(alloc, rest)?;
            Ok((Some(Boxed::new(alloc, iface)?), rest))
        }
        None => Ok((None, tokens)),
    }
}

#[tactic(auto, unfolding(crate::specs::Rule::relation))]
fn behind_relation(tokens: &[Token]) -> Option<&[Token]>
    ensures begins { Begins relation tokens.now result }
    ensures left { IfSome result (λ rest. length rest.now < length tokens.now) }
{
    if let Some(rest) = behind_sign(Sign::Equals, tokens) {
        return Some(rest);
    }
    if let Some(rest) = behind_sign(Sign::Exclamation, tokens) {
        return Some(rest);
    }
    if let Some(rest) = behind_sign(Sign::Less, tokens) {
        return Some(rest);
    }
    behind_sign(Sign::Greater, tokens)
}

fn behind_relations(tokens: &[Token]) -> &[Token]
    ensures { (meaning relations).read tokens.now ≡ Ok (tt, result.now) }
{
    let mut rest = tokens;
    'relations: loop {
        match behind_relation(rest) {
            Some(next) => rest = next,
            None => return rest,
        }
    }
}

fn behind_owner_word(tokens: &[Token]) -> Option<&[Token]>
    ensures { Begins owner_word tokens.now result }
{
    if let Some(rest) = behind_word("user", tokens) {
        return Some(rest);
    }
    behind_word("group", tokens)
}

#[tactic(auto, unfolding(npf_phrase::specs::Phrase::read_token))]
fn after_owner_name(tokens: &[Token]) -> Result<&[Token], Stop>
    ensures { GoesOn ((meaning owner_name).read tokens.now) result }
{
    match tokens.split_first() {
        Some((first, rest)) if matches!(first.kind, TokenKind::Number(_) | TokenKind::Word(_)) => {
            Ok(rest)
        }
        _ => Err(Stop::Before(tokens)),
    }
}

#[tactic(auto, unfolding(crate::specs::Rule::owner))]
fn read_owner(tokens: &[Token]) -> Result<(Option<Span>, &[Token]), Stop>
    ensures { AnswersAlone ((meaning (optional owner)).read tokens.now) result }
{
    match behind_owner_word(tokens) {
        Some(rest) => {
            let rest = after_owner_name(behind_relations(rest))?;
            Ok((Some(span_to(tokens, rest)), rest))
        }
        None => Ok((None, tokens)),
    }
}

fn read_apply<'a>(
    alloc: Global,
    tokens: &'a [Token],
) -> Result<(Option<Str>, &'a [Token]), Stop<'a>>
    ensures { Answers ((meaning (optional (preceded (quoted (codes "apply")) string))).read tokens.now) result }
{
    match behind_word("apply", tokens) {
        Some(rest) => {
            let (string, rest) = read_string(alloc, rest)?;
            Ok((Some(string), rest))
        }
        None => Ok((None, tokens)),
    }
}

#[tactic(auto, unfolding(crate::specs::Rule::rule))]
pub(crate) fn read_rule<'a>(
    alloc: Global,
    tokens: &'a [Token],
) -> Result<(RuleTree, &'a [Token]), Stop<'a>>
    ensures { Answers ((meaning rule).read tokens.now) result }
{
    let (action, rest) = read_action(tokens)?;
    let (stateful, rest) = stateful_of(rest);
    let (dir, rest) = direction_of(rest);
    let (last, rest) = final_of(rest);
    let (on, rest) = read_on(alloc, rest)?;
    let (filter, rest) = read_filter(alloc, rest)?;
    let (owner, rest) = read_owner(rest)?;
    let (apply, rest) = read_apply(alloc, rest)?;
    let span = span_to(tokens, rest);
    let rule = RuleTree {
        action,
        stateful,
        dir,
        last,
        on,
        filter,
        owner,
        apply,
        span,
    };
    Ok((rule, rest))
}
