// Protocols and lists of them: a function for each line of the grammar.
ghost use Rattle.npf_phrase.specs.Grammar.{meaning};
ghost use Rattle.npf_parser_values.specs.Answer.{Answers};
ghost use Rattle.npf_parser_values.specs.Value.{one, ones, one_list, protocols};

use crate::leaf::{read_number_to, read_variable, read_word};
use crate::stop::Stop;
use crate::text::span_to;
use crate::tokens::{after_sign, behind_sign};
use npf_lexer::{Sign, Token, TokenKind};
use npf_syntax::{One, OneList, Protocols};
use npf_types::List;
use std::alloc::Global;

/// A protocol, and the tokens behind it; or the tokens at which it stops going on.
#[tactic(auto, unfolding(crate::specs::Value::one))]
pub fn read_one<'a>(alloc: Global, tokens: &'a [Token]) -> Result<(One, &'a [Token]), Stop<'a>>
    ensures { Answers ((meaning one).read tokens.now) result }
{
    match tokens.first() {
        Some(first) if matches!(first.kind, TokenKind::Number(_)) => {
            let (number, rest) = read_number_to(255, tokens)?;
            let span = span_to(tokens, rest);
            Ok((One::Number { number, span }, rest))
        }
        Some(first) if matches!(first.kind, TokenKind::Var(_)) => {
            let (var, rest) = read_variable(alloc, tokens)?;
            let span = span_to(tokens, rest);
            Ok((One::Var { var, span }, rest))
        }
        _ => {
            let (word, rest) = read_word(alloc, tokens)?;
            let span = span_to(tokens, rest);
            Ok((One::Word { word, span }, rest))
        }
    }
}

/// The protocols of a list, up to the last that no comma follows.
fn read_ones<'a>(alloc: Global, tokens: &'a [Token]) -> Result<(List<One>, &'a [Token]), Stop<'a>>
    ensures { Answers ((meaning ones).read tokens.now) result }
{
    let mut ones = Vec::new(alloc);
    let mut rest = tokens;
    'ones: loop {
        let (one, behind) = read_one(alloc, rest)?;
        ones.push(one)?;
        match behind_sign(Sign::Comma, behind) {
            Some(next) => rest = next,
            None => return Ok((List::of_vec(ones), behind)),
        }
    }
}

#[tactic(auto, unfolding(crate::specs::Value::one_list))]
fn read_one_list<'a>(alloc: Global, tokens: &'a [Token]) -> Result<(OneList, &'a [Token]), Stop<'a>>
    ensures { Answers ((meaning one_list).read tokens.now) result }
{
    let rest = after_sign(Sign::OpenBrace, tokens)?;
    let (ones, rest) = read_ones(alloc, rest)?;
    let rest = after_sign(Sign::CloseBrace, rest)?;
    let span = span_to(tokens, rest);
    Ok((OneList { ones, span }, rest))
}

/// A protocol or a list of them, and the tokens behind it; or the tokens at which it stops going on.
#[tactic(auto, unfolding(crate::specs::Value::protocols, crate::specs::Value::one_list))]
pub fn read_protocols<'a>(
    alloc: Global,
    tokens: &'a [Token],
) -> Result<(Protocols, &'a [Token]), Stop<'a>>
    ensures { Answers ((meaning protocols).read tokens.now) result }
{
    match behind_sign(Sign::OpenBrace, tokens) {
        Some(_) => {
            let (list, rest) = read_one_list(alloc, tokens)?;
            let span = span_to(tokens, rest);
            Ok((Protocols::List { list, span }, rest))
        }
        None => {
            let (one, rest) = read_one(alloc, tokens)?;
            let span = span_to(tokens, rest);
            Ok((Protocols::One { one, span }, rest))
        }
    }
}
