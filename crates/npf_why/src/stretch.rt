// Which bytes of a text hold a place: the innermost statement, item or call.
ghost use Rattle.std.specs.Prelude.{◌≡◌, ◌+◌};
ghost use Rattle.npf_lexer.specs.declared.token.TokenKind.TheVariants as Kind;
ghost use Rattle.npf_why.specs.Stretch.{at_front, from_place, end_at, end_from, end_of_token, inner_behind, is_divider, is_end, is_list_word, leads_list, list_behind, step, stretch_of, walked};

use crate::tokens::{tokens_at, tokens_before};
use npf_lexer::{Sign, Token, TokenKind};

/// Bytes of a text, from one up to another.
#[derive(Clone, Copy, Debug, PartialEq, Eq)]
pub(crate) struct Stretch {
    pub from: usize,
    pub to: usize,
}

/// What is known of a place, by the tokens before it.
#[derive(Clone, Copy, Debug, PartialEq, Eq)]
pub(crate) struct Walk {
    /// The byte behind the last separator or brace that is no list's.
    pub start: usize,
    /// Nothing stands behind it.
    pub is_empty: bool,
    /// The place is in the braces of a list.
    pub in_list: bool,
    /// A brace there would open a list.
    pub leads_list: bool,
    /// The place is in braces that are no list's, and that were opened since the place that is looked for.
    pub is_inner: bool,
}

/// The bytes that hold byte `at` of a text with so many bytes and these tokens.
pub(crate) fn stretch_of(len: usize, at: u32, tokens: &[Token]) -> Stretch
    ensures { result ≡ stretch_of len at tokens.now }
{
    let walk = from_place(walked(tokens_before(tokens, at)));
    Stretch {
        from: walk.start,
        to: end_at(len, walk, tokens_at(tokens, at)),
    }
}

fn walked(tokens: &[Token]) -> Walk
    ensures { result ≡ walked at_front tokens.now }
{
    let mut walk = at_front();
    for token in tokens {
        walk = step(walk, token);
    }
    walk
}

fn at_front() -> Walk
    ensures { result ≡ at_front }
{
    Walk {
        start: 0,
        is_empty: true,
        in_list: false,
        leads_list: false,
        is_inner: false,
    }
}

fn from_place(walk: Walk) -> Walk
    ensures { result ≡ from_place walk }
{
    Walk {
        is_inner: false,
        ..walk
    }
}

fn end_at(len: usize, walk: Walk, tokens: &[Token]) -> usize
    ensures { result ≡ end_at len walk tokens.now }
{
    match tokens.first() {
        Some(token) if walk.is_empty && is_end(walk, &token.kind) => end_of_token(token),
        _ => end_from(len, walk, tokens),
    }
}

fn end_from(len: usize, mut walk: Walk, tokens: &[Token]) -> usize
    ensures { result ≡ end_from len walk tokens.now }
{
    for token in tokens {
        if is_end(walk, &token.kind) {
            return token.span.at as usize;
        }
        walk = step(walk, token);
    }
    len
}

fn step(walk: Walk, token: &Token) -> Walk
    ensures { result ≡ step walk token.now }
{
    let is_divider = is_divider(walk, &token.kind);
    Walk {
        start: if is_divider {
            end_of_token(token)
        } else {
            walk.start
        },
        is_empty: is_divider,
        in_list: list_behind(walk, &token.kind),
        leads_list: leads_list(&token.kind),
        is_inner: inner_behind(walk, &token.kind),
    }
}

fn end_of_token(token: &Token) -> usize
    ensures { result ≡ end_of_token token.now }
{
    token.span.at as usize + token.span.len as usize
}

fn is_end(walk: Walk, kind: &TokenKind) -> bool
    ensures { result ≡ is_end walk kind.now }
{
    match kind {
        TokenKind::End => true,
        TokenKind::Sign(Sign::OpenBrace) => false,
        _ => is_divider(walk, kind) && !walk.is_inner,
    }
}

fn is_divider(walk: Walk, kind: &TokenKind) -> bool
    ensures { result ≡ is_divider walk kind.now }
{
    match kind {
        TokenKind::LineFeed => !walk.in_list,
        TokenKind::Semicolon => true,
        TokenKind::Sign(Sign::OpenBrace) => !(walk.in_list || walk.leads_list),
        TokenKind::Sign(Sign::CloseBrace) => !walk.in_list,
        _ => false,
    }
}

fn list_behind(walk: Walk, kind: &TokenKind) -> bool
    ensures { result ≡ list_behind walk kind.now }
{
    match kind {
        TokenKind::Semicolon => false,
        TokenKind::Sign(Sign::OpenBrace) => walk.in_list || walk.leads_list,
        TokenKind::Sign(Sign::CloseBrace) => false,
        _ => walk.in_list,
    }
}

fn inner_behind(walk: Walk, kind: &TokenKind) -> bool
    ensures { result ≡ inner_behind walk kind.now }
{
    match kind {
        TokenKind::Sign(Sign::OpenBrace) => walk.is_inner || is_divider(walk, kind),
        TokenKind::Sign(Sign::CloseBrace) => walk.is_inner && walk.in_list,
        _ => walk.is_inner,
    }
}

fn leads_list(kind: &TokenKind) -> bool
    ensures { result ≡ leads_list kind.now }
{
    match kind {
        TokenKind::Sign(Sign::Equals) => true,
        TokenKind::Sign(Sign::Exclamation) => true,
        TokenKind::Word(word) => is_list_word(word.as_slice()),
        _ => false,
    }
}

fn is_list_word(word: &[u8]) -> bool
    ensures { result ≡ is_list_word word.now }
{
    word == "from".as_bytes()
        || word == "to".as_bytes()
        || word == "port".as_bytes()
        || word == "proto".as_bytes()
}
