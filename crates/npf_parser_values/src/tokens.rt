// The tokens that stand first, with one token of sight.
ghost use Rattle.std.specs.Prelude.{◌≡◌, ◌<◌, true, Ok, IfSome, is_some, length};
ghost use Rattle.npf_phrase.specs.Grammar.{meaning};
ghost use Rattle.npf_phrase.specs.Phrase.{head};
ghost use Rattle.npf_parser_values.specs.Answer.{AnswersAlone, GoesOn, Begins};
ghost use Rattle.npf_parser_values.specs.Token.{quoted, quoted_name, sign, separator, separator_test, line_feed, gap, spaced, text_end};

use crate::stop::{NOWHERE, Stop};
use crate::text::is_line_feed;
use npf_lexer::{Sign, Token, TokenKind};
use npf_types::Span;

/// The tokens behind this quoted word, where it stands first.
#[tactic(auto, unfolding(npf_phrase::specs::Phrase::read_token))]
pub fn behind_word<'a>(word: &str, tokens: &'a [Token]) -> Option<&'a [Token]>
    ensures { Begins (quoted word.now) tokens.now result }
{
    let Some((first, rest)) = tokens.split_first() else {
        return None;
    };
    match &first.kind {
        TokenKind::Word(text) if text.as_slice() == word.as_bytes() => Some(rest),
        _ => None,
    }
}

/// The tokens behind this quoted word, which has to stand first; or these tokens, where it doesn't.
pub fn after_word<'a>(word: &str, tokens: &'a [Token]) -> Result<&'a [Token], Stop<'a>>
    ensures { GoesOn ((meaning (quoted word.now)).read tokens.now) result }
{
    match behind_word(word, tokens) {
        Some(rest) => Ok(rest),
        None => Err(Stop::Before(tokens)),
    }
}

/// The tokens behind this name written as a string, where it stands first.
#[tactic(auto, unfolding(npf_phrase::specs::Phrase::read_token))]
pub fn behind_name<'a>(name: &str, tokens: &'a [Token]) -> Option<&'a [Token]>
    ensures { Begins (quoted_name name.now) tokens.now result }
{
    let Some((first, rest)) = tokens.split_first() else {
        return None;
    };
    match &first.kind {
        TokenKind::Str(text) if text.as_slice() == name.as_bytes() => Some(rest),
        _ => None,
    }
}

/// The tokens behind this sign, where it stands first.
#[tactic(auto, unfolding(npf_phrase::specs::Phrase::read_token))]
pub fn behind_sign(wanted: Sign, tokens: &[Token]) -> Option<&[Token]>
    ensures begins { Begins (sign wanted) tokens.now result }
    ensures left { IfSome result (λ rest. length rest.now < length tokens.now) }
{
    let Some((first, rest)) = tokens.split_first() else {
        return None;
    };
    match &first.kind {
        TokenKind::Sign(found) if found.text() == wanted.text() => Some(rest),
        _ => None,
    }
}

/// The tokens behind this sign, which has to stand first; or these tokens, where it doesn't.
pub fn after_sign(wanted: Sign, tokens: &[Token]) -> Result<&[Token], Stop>
    ensures { GoesOn ((meaning (sign wanted)).read tokens.now) result }
{
    match behind_sign(wanted, tokens) {
        Some(rest) => Ok(rest),
        None => Err(Stop::Before(tokens)),
    }
}

fn is_separator(token: &Token) -> bool
    ensures { result ≡ is_some (separator_test token.now.kind) }
{
    matches!(token.kind, TokenKind::LineFeed | TokenKind::Semicolon)
}

/// The tokens behind a line feed or a semicolon, where one stands first.
#[tactic(auto, unfolding(npf_phrase::specs::Phrase::read_token))]
pub fn behind_separator(tokens: &[Token]) -> Option<&[Token]>
    ensures begins { Begins separator tokens.now result }
    ensures left { IfSome result (λ rest. length rest.now < length tokens.now) }
{
    match tokens.split_first() {
        Some((first, rest)) if is_separator(first) => Some(rest),
        _ => None,
    }
}

/// The tokens behind a line feed, where one stands first.
#[tactic(auto, unfolding(npf_phrase::specs::Phrase::read_token))]
fn behind_line_feed(tokens: &[Token]) -> Option<&[Token]>
    ensures begins { Begins line_feed tokens.now result }
    ensures left { IfSome result (λ rest. length rest.now < length tokens.now) }
{
    match tokens.split_first() {
        Some((first, rest)) if is_line_feed(first) => Some(rest),
        _ => None,
    }
}

fn skip_line_feeds(tokens: &[Token]) -> &[Token]
    ensures { (meaning (gap true)).read tokens.now ≡ Ok (tt, result.now) }
{
    let mut rest = tokens;
    'feeds: loop {
        match behind_line_feed(rest) {
            Some(next) => rest = next,
            None => return rest,
        }
    }
}

/// The tokens behind line feeds, inside a value list, and else all of them.
pub(crate) fn skip(inside: bool, tokens: &[Token]) -> &[Token]
    ensures { (meaning (gap inside)).read tokens.now ≡ Ok (tt, result.now) }
{
    if inside {
        skip_line_feeds(tokens)
    } else {
        tokens
    }
}

/// The tokens behind this sign and what may lie behind it, where it stands first.
pub(crate) fn behind_spaced(wanted: Sign, inside: bool, tokens: &[Token]) -> Option<&[Token]>
    ensures { Begins (spaced inside (sign wanted)) tokens.now result }
{
    match behind_sign(wanted, tokens) {
        Some(rest) => Some(skip(inside, rest)),
        None => None,
    }
}

pub(crate) fn after_spaced(wanted: Sign, inside: bool, tokens: &[Token]) -> Result<&[Token], Stop>
    ensures { GoesOn ((meaning (spaced inside (sign wanted))).read tokens.now) result }
{
    match behind_spaced(wanted, inside, tokens) {
        Some(rest) => Ok(rest),
        None => Err(Stop::Before(tokens)),
    }
}

/// Whether a line feed or a semicolon stands first.
pub fn is_at_separator(tokens: &[Token]) -> bool
    ensures { result ≡ (meaning separator).starts (head tokens.now) }
{
    match tokens.first() {
        Some(token) => is_separator(token),
        None => false,
    }
}

/// The place of the text's end, which has to stand first; or these tokens, where it doesn't.
#[tactic(auto, unfolding(npf_phrase::specs::Phrase::read_token))]
pub fn read_end(tokens: &[Token]) -> Result<(Span, &[Token]), Stop>
    ensures { AnswersAlone ((meaning text_end).read tokens.now) result }
{
    match tokens.split_first() {
        None => Ok((NOWHERE, tokens)),
        Some((first, rest)) if matches!(first.kind, TokenKind::End) => Ok((first.span, rest)),
        _ => Err(Stop::Before(tokens)),
    }
}
