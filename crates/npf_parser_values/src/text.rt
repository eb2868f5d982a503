// The text of the tokens that a phrase takes, and copies of texts.
ghost use Rattle.std.specs.Prelude.{◌≡◌, IfOk, IfErr};
ghost use Rattle.npf_parser_values.specs.declared.stop.Stop.TheVariants as Stop;
ghost use Rattle.npf_parser_values.specs.Token.{joined, whole_span, is_line_feed_kind, trimmed, span_of};
ghost use Rattle.npf_phrase.specs.Phrase.{front_of};

use crate::stop::{NOWHERE, Stop};
use npf_lexer::{Token, TokenKind};
use npf_types::{List, Span, Text};
use std::alloc::Global;

pub(crate) fn copied<'a>(alloc: Global, text: &[u8]) -> Result<Text, Stop<'a>>
    ensures copy { IfOk result (λ copy. copy ≡ text.now) }
    ensures memory { IfErr result (λ stop. stop ≡ Stop.NoMemory) }
{
    match text.to_vec(alloc) {
        Ok(bytes) => Ok(List::of_vec(bytes)),
        Err(_) => Err(Stop::NoMemory),
    }
}

fn joined(first: Span, last: Span) -> Span
    ensures { result ≡ joined first last }
{
    let len = (u64::from(last.at) + u64::from(last.len)).saturating_sub(u64::from(first.at));
    Span {
        line: first.line,
        col: first.col,
        at: first.at,
        len: len.min(u64::from(u32::MAX)) as u32,
    }
}

fn whole_span(tokens: &[Token]) -> Span
    ensures { result ≡ whole_span tokens.now }
{
    match (tokens.first(), tokens.get(tokens.len().saturating_sub(1))) {
        (Some(first), Some(last)) => joined(first.span, last.span),
        _ => NOWHERE,
    }
}

pub(crate) fn is_line_feed(token: &Token) -> bool
    ensures { result ≡ is_line_feed_kind token.now.kind }
{
    matches!(token.kind, TokenKind::LineFeed)
}

/// The tokens without the line feeds at their end.
fn trimmed(tokens: &[Token]) -> &[Token]
    ensures { result.now ≡ trimmed tokens.now }
{
    let mut rest = tokens;
    'feeds: loop {
        match rest.split_last() {
            Some((last, front)) => {
                if !is_line_feed(last) {
                    return rest;
                }
                rest = front;
            }
            None => return rest,
        }
    }
}

#[tactic(auto, unfolding(crate::specs::Token::span_of))]
fn span_of(tokens: &[Token]) -> Span
    ensures { result ≡ span_of tokens.now }
{
    whole_span(trimmed(tokens))
}

/// The text of the tokens that come before the others.
#[tactic(auto, unfolding(npf_phrase::specs::Phrase::front_of))]
pub fn span_to(tokens: &[Token], rest: &[Token]) -> Span
    ensures { result ≡ span_of (front_of tokens.now rest.now) }
{
    span_of(tokens.split_at(tokens.len().saturating_sub(rest.len())).0)
}
