// The tokens that carry something, and those that have to be of some form where they stand. UTF-8 is std's `is_utf8`. Each reading
// stops before its tokens where the first is none such.
ghost use Rattle.std.specs.Prelude.{◌≡◌};
ghost use Rattle.std.specs.List.{list_all};
ghost use Rattle.std.specs.Str.{is_utf8};
ghost use Rattle.npf_types.specs.NameText.{is_name};
ghost use Rattle.npf_phrase.specs.Grammar.{meaning};
ghost use Rattle.npf_parser_values.specs.Answer.{Answers, AnswersAlone};
ghost use Rattle.npf_parser_values.specs.Token.{string, word, variable, number, address, number_to, name_word, name_string, text_string, is_flag, flags};

use crate::stop::Stop;
use crate::text::copied;
use npf_lexer::{Token, TokenKind};
use npf_syntax::{Address, Number, Str, Var, Word};
use npf_types::Name;
use std::alloc::Global;
use std::str;

/// A string, and the tokens behind it.
#[tactic(auto, unfolding(npf_phrase::specs::Phrase::read_token))]
pub fn read_string<'a>(alloc: Global, tokens: &'a [Token]) -> Result<(Str, &'a [Token]), Stop<'a>>
    ensures { Answers ((meaning string).read tokens.now) result }
{
    let Some((first, rest)) = tokens.split_first() else {
        return Err(Stop::Before(tokens));
    };
    match &first.kind {
        TokenKind::Str(text) => {
            let text = copied(alloc, text.as_slice())?;
            let span = first.span;
            Ok((Str { text, span }, rest))
        }
        _ => Err(Stop::Before(tokens)),
    }
}

/// A word, and the tokens behind it.
#[tactic(auto, unfolding(npf_phrase::specs::Phrase::read_token))]
pub fn read_word<'a>(alloc: Global, tokens: &'a [Token]) -> Result<(Word, &'a [Token]), Stop<'a>>
    ensures { Answers ((meaning word).read tokens.now) result }
{
    let Some((first, rest)) = tokens.split_first() else {
        return Err(Stop::Before(tokens));
    };
    match &first.kind {
        TokenKind::Word(text) => {
            let text = copied(alloc, text.as_slice())?;
            let span = first.span;
            Ok((Word { text, span }, rest))
        }
        _ => Err(Stop::Before(tokens)),
    }
}

/// A variable, and the tokens behind it.
#[tactic(auto, unfolding(npf_phrase::specs::Phrase::read_token))]
pub fn read_variable<'a>(alloc: Global, tokens: &'a [Token]) -> Result<(Var, &'a [Token]), Stop<'a>>
    ensures { Answers ((meaning variable).read tokens.now) result }
{
    let Some((first, rest)) = tokens.split_first() else {
        return Err(Stop::Before(tokens));
    };
    match &first.kind {
        TokenKind::Var(text) => {
            let name = copied(alloc, text.as_slice())?;
            let span = first.span;
            Ok((Var { name, span }, rest))
        }
        _ => Err(Stop::Before(tokens)),
    }
}

/// A number, and the tokens behind it.
#[tactic(auto, unfolding(npf_phrase::specs::Phrase::read_token))]
pub fn read_number(tokens: &[Token]) -> Result<(Number, &[Token]), Stop>
    ensures { AnswersAlone ((meaning number).read tokens.now) result }
{
    let Some((first, rest)) = tokens.split_first() else {
        return Err(Stop::Before(tokens));
    };
    match first.kind {
        TokenKind::Number(value) => {
            let span = first.span;
            Ok((Number { value, span }, rest))
        }
        _ => Err(Stop::Before(tokens)),
    }
}

#[tactic(auto, unfolding(npf_phrase::specs::Phrase::read_token))]
pub(crate) fn read_address(tokens: &[Token]) -> Result<(Address, &[Token]), Stop>
    ensures { AnswersAlone ((meaning address).read tokens.now) result }
{
    let Some((first, rest)) = tokens.split_first() else {
        return Err(Stop::Before(tokens));
    };
    match first.kind {
        TokenKind::Address(addr) => {
            let span = first.span;
            Ok((Address { addr, span }, rest))
        }
        _ => Err(Stop::Before(tokens)),
    }
}

/// A number of at most `most`, and the tokens behind it.
pub fn read_number_to(most: u32, tokens: &[Token]) -> Result<(Number, &[Token]), Stop>
    ensures { AnswersAlone ((meaning (number_to most)).read tokens.now) result }
{
    let (number, rest) = read_number(tokens)?;
    if number.value <= most {
        return Ok((number, rest));
    }
    Err(Stop::Before(tokens))
}

pub(crate) fn is_name(text: &[u8]) -> bool
    ensures { result ≡ is_name text.now }
{
    Name::of(text).is_some()
}

/// A word that is a `Name`, and the tokens behind it.
pub fn read_name_word<'a>(
    alloc: Global,
    tokens: &'a [Token],
) -> Result<(Word, &'a [Token]), Stop<'a>>
    ensures { Answers ((meaning name_word).read tokens.now) result }
{
    let (word, rest) = read_word(alloc, tokens)?;
    if is_name(word.text.as_slice()) {
        return Ok((word, rest));
    }
    Err(Stop::Before(tokens))
}

/// A string that is a `Name`, and the tokens behind it.
pub fn read_name_string<'a>(
    alloc: Global,
    tokens: &'a [Token],
) -> Result<(Str, &'a [Token]), Stop<'a>>
    ensures { Answers ((meaning name_string).read tokens.now) result }
{
    let (string, rest) = read_string(alloc, tokens)?;
    if is_name(string.text.as_slice()) {
        return Ok((string, rest));
    }
    Err(Stop::Before(tokens))
}

fn is_utf8(text: &[u8]) -> bool
    ensures { result ≡ is_utf8 text.now }
{
    match str::from_utf8(text) {
        Ok(_) => true,
        Err(_) => false,
    }
}

/// A string that is UTF-8, and the tokens behind it.
pub fn read_text_string<'a>(
    alloc: Global,
    tokens: &'a [Token],
) -> Result<(Str, &'a [Token]), Stop<'a>>
    ensures { Answers ((meaning text_string).read tokens.now) result }
{
    let (string, rest) = read_string(alloc, tokens)?;
    if is_utf8(string.text.as_slice()) {
        return Ok((string, rest));
    }
    Err(Stop::Before(tokens))
}

fn is_flag(byte: u8) -> bool
    ensures { result ≡ is_flag byte }
{
    matches!(byte, b'F' | b'S' | b'R' | b'P' | b'A' | b'U' | b'E' | b'W')
}

fn are_flags(text: &[u8]) -> bool
    ensures { result ≡ list_all is_flag text.now }
{
    text.iter().all(|byte| is_flag(*byte))
}

/// A word of the letters of TCP's flags, `FSRPAUEW`, and the tokens behind it.
pub fn read_flags<'a>(alloc: Global, tokens: &'a [Token]) -> Result<(Word, &'a [Token]), Stop<'a>>
    ensures { Answers ((meaning flags).read tokens.now) result }
{
    let (word, rest) = read_word(alloc, tokens)?;
    if are_flags(word.text.as_slice()) {
        return Ok((word, rest));
    }
    Err(Stop::Before(tokens))
}
