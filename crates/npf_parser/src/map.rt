// Maps: a function for each line of the grammar.
ghost use Rattle.std.specs.Prelude.{◌≡◌, codes, false, Ok};
ghost use Rattle.npf_phrase.specs.Grammar.{meaning, optional, preceded};
ghost use Rattle.npf_parser_values.specs.Answer.{Answers, AnswersAlone};
ghost use Rattle.npf_parser_values.specs.Token.{quoted, word};
ghost use Rattle.npf_parser_values.specs.Value.{one, value};
ghost use Rattle.npf_parser.specs.Filter.{filter};
ghost use Rattle.npf_parser.specs.Map.{no_ports, map_kind, arrow, side, map_ruleset};
ghost use Rattle.npf_parser.specs.Parse.{map_behind};
ghost use Rattle.npf_parser.specs.Stmt.{map, map_rest, translation};

use crate::filter::read_filter;
use crate::rule::{direction_of, read_on};
use npf_lexer::{Sign, Token, TokenKind};
use npf_parser_values::{
    Stop, ValueRole, after_word, behind_sign, behind_word, read_iface, read_one, read_string,
    read_value, read_word, span_to,
};
use npf_syntax::{
    ArrowTree, Boxed, Filter, IfaceTree, MapKind, One, SideTree, Stmt, Str, Value, Word,
};
use npf_types::Span;
use std::alloc::Global;

fn read_algo<'a>(
    alloc: Global,
    tokens: &'a [Token],
) -> Result<(Option<Word>, &'a [Token]), Stop<'a>>
    ensures { Answers ((meaning (optional (preceded (quoted (codes "algo")) word))).read tokens.now) result }
{
    match behind_word("algo", tokens) {
        Some(rest) => {
            let (word, rest) = read_word(alloc, rest)?;
            Ok((Some(word), rest))
        }
        None => Ok((None, tokens)),
    }
}

fn no_ports_of(tokens: &[Token]) -> (Option<Span>, &[Token])
    ensures { (meaning (optional no_ports)).read tokens.now ≡ Ok (result.0, result.1.now) }
{
    match behind_word("no-ports", tokens) {
        Some(rest) => (Some(span_to(tokens, rest)), rest),
        None => (None, tokens),
    }
}

#[tactic(auto, unfolding(crate::specs::Map::map_kind, crate::specs::Map::kind_details))]
fn read_map_kind<'a>(alloc: Global, tokens: &'a [Token]) -> Result<(MapKind, &'a [Token]), Stop<'a>>
    ensures { Answers ((meaning map_kind).read tokens.now) result }
{
    if let Some(rest) = behind_word("dynamic", tokens) {
        let (algo, rest) = read_algo(alloc, rest)?;
        let (no_ports, rest) = no_ports_of(rest);
        let span = span_to(tokens, rest);
        return Ok((
            MapKind::Dynamic {
                algo,
                no_ports,
                span,
            },
            rest,
        ));
    }
    match behind_word("static", tokens) {
        Some(rest) => {
            let (algo, rest) = read_algo(alloc, rest)?;
            let (no_ports, rest) = no_ports_of(rest);
            let span = span_to(tokens, rest);
            Ok((
                MapKind::Static {
                    algo,
                    no_ports,
                    span,
                },
                rest,
            ))
        }
        None => Err(Stop::Before(tokens)),
    }
}

#[tactic(auto, unfolding(crate::specs::Map::arrow))]
fn read_arrow(tokens: &[Token]) -> Result<(ArrowTree, &[Token]), Stop>
    ensures { AnswersAlone ((meaning arrow).read tokens.now) result }
{
    if let Some(rest) = behind_sign(Sign::Right, tokens) {
        let span = span_to(tokens, rest);
        return Ok((ArrowTree::Right { span }, rest));
    }
    if let Some(rest) = behind_sign(Sign::Left, tokens) {
        let span = span_to(tokens, rest);
        return Ok((ArrowTree::Left { span }, rest));
    }
    if let Some(rest) = behind_sign(Sign::Both, tokens) {
        let span = span_to(tokens, rest);
        return Ok((ArrowTree::Both { span }, rest));
    }
    Err(Stop::Before(tokens))
}

fn read_optional_port<'a>(
    alloc: Global,
    tokens: &'a [Token],
) -> Result<(Option<Value>, &'a [Token]), Stop<'a>>
    ensures { Answers ((meaning (optional (preceded (quoted (codes "port")) (value ValueRole.Port false)))).read tokens.now) result }
{
    match behind_word("port", tokens) {
        Some(rest) => {
            let (port, rest) = read_value(alloc, ValueRole::Port, false, rest)?;
            Ok((Some(port), rest))
        }
        None => Ok((None, tokens)),
    }
}

#[tactic(auto, unfolding(crate::specs::Map::side))]
fn read_side<'a>(alloc: Global, tokens: &'a [Token]) -> Result<(SideTree, &'a [Token]), Stop<'a>>
    ensures { Answers ((meaning side).read tokens.now) result }
{
    let (value, rest) = read_value(alloc, ValueRole::Address, false, tokens)?;
    let (port, rest) = read_optional_port(alloc, rest)?;
    let span = span_to(tokens, rest);
    Ok((SideTree { value, port, span }, rest))
}

fn read_optional_proto<'a>(
    alloc: Global,
    tokens: &'a [Token],
) -> Result<(Option<Boxed<One>>, &'a [Token]), Stop<'a>>
    ensures { Answers ((meaning (optional (preceded (quoted (codes "proto")) one))).read tokens.now) result }
{
    match behind_word("proto", tokens) {
        Some(rest) => {
            let (one, rest) = read_one(alloc, rest)?;
            Ok((Some(Boxed::new(alloc, one)?), rest))
        }
        None => Ok((None, tokens)),
    }
}

fn read_optional_pass<'a>(
    alloc: Global,
    tokens: &'a [Token],
) -> Result<(Option<Boxed<Filter>>, &'a [Token]), Stop<'a>>
    ensures { Answers ((meaning (optional (preceded (quoted (codes "pass")) filter))).read tokens.now) result }
{
    match behind_word("pass", tokens) {
        Some(rest) => {
            let (filter, rest) = read_filter(alloc, rest)?;
            Ok((Some(Boxed::new(alloc, filter)?), rest))
        }
        None => Ok((None, tokens)),
    }
}

#[tactic(auto, unfolding(crate::specs::Map::map_ruleset))]
fn read_map_ruleset<'a>(alloc: Global, tokens: &'a [Token]) -> Result<(Str, &'a [Token]), Stop<'a>>
    ensures { Answers ((meaning map_ruleset).read tokens.now) result }
{
    let (name, rest) = read_string(alloc, tokens)?;
    let (_, rest) = direction_of(rest);
    let (_, rest) = read_on(alloc, rest)?;
    Ok((name, rest))
}

// The map of these tokens, whose interface stands in front of the rest.
#[tactic(auto, unfolding(crate::specs::Stmt::translation))]
fn read_translation<'a>(
    alloc: Global,
    tokens: &[Token],
    iface: Boxed<IfaceTree>,
    rest: &'a [Token],
) -> Result<(Stmt, &'a [Token]), Stop<'a>>
    ensures { Answers (map_behind translation tokens.now iface rest.now) result }
{
    let (kind, rest) = read_map_kind(alloc, rest)?;
    let (proto, rest) = read_optional_proto(alloc, rest)?;
    let (left, rest) = read_side(alloc, rest)?;
    let (arrow, rest) = read_arrow(rest)?;
    let (right, rest) = read_side(alloc, rest)?;
    let (pass, rest) = read_optional_pass(alloc, rest)?;
    let span = span_to(tokens, rest);
    let map = Stmt::Map {
        iface,
        kind: Boxed::new(alloc, kind)?,
        proto,
        left: Boxed::new(alloc, left)?,
        arrow,
        right: Boxed::new(alloc, right)?,
        pass,
        span,
    };
    Ok((map, rest))
}

#[tactic(auto, unfolding(crate::specs::Stmt::map_rest, crate::specs::Map::map_ruleset))]
fn read_map_rest<'a>(
    alloc: Global,
    tokens: &[Token],
    iface: Boxed<IfaceTree>,
    rest: &'a [Token],
) -> Result<(Stmt, &'a [Token]), Stop<'a>>
    ensures { Answers (map_behind map_rest tokens.now iface rest.now) result }
{
    match rest.first() {
        Some(first) if matches!(first.kind, TokenKind::Str(_)) => {
            let (_, rest) = read_map_ruleset(alloc, rest)?;
            let span = span_to(tokens, rest);
            Ok((Stmt::MapRuleset { iface, span }, rest))
        }
        _ => read_translation(alloc, tokens, iface, rest),
    }
}

#[tactic(auto, unfolding(crate::specs::Stmt::map))]
pub(crate) fn read_map<'a>(
    alloc: Global,
    tokens: &'a [Token],
) -> Result<(Stmt, &'a [Token]), Stop<'a>>
    ensures { Answers ((meaning map).read tokens.now) result }
{
    let rest = after_word("map", tokens)?;
    let (iface, rest) = read_iface(alloc, rest)?;
    read_map_rest(alloc, tokens, Boxed::new(alloc, iface)?, rest)
}
