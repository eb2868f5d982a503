// A text without what holds a place.
ghost use Rattle.std.specs.Prelude.{◌≡◌, ◌≤◌, ◌-◌, ◌++◌, IfOk, OnOk, drop, length, map, take};
ghost use Rattle.std.specs.List.{prefix_len};
ghost use Rattle.npf_types.specs.declared.limits.TheConstants.{MAX_TEXT_BYTES};
ghost use Rattle.npf_lexer.specs.ByteClass.{is_line_byte};
ghost use Rattle.npf_why.specs.Remains.{AreTokensOf, IsTextWithout, TakesOutPart, blank, bytes_between, line_of, taken_out};

use crate::stretch::{Stretch, stretch_of};
use npf_faults::Refused;
use npf_lexer::{Token, lex};
use npf_types::limits::MAX_TEXT_BYTES;
use npf_types::{NoMemory, Span};
use std::alloc::Global;

/// A text without a part of it.
#[derive(Debug, Drop)]
pub struct Remains {
    /// What is left: as many bytes, in which those of the part are spaces, and its line feeds stand.
    pub left: Vec<u8>,
    /// The tokens of the part, or none where it isn't tokens.
    pub gone: Vec<Token>,
}

/// A text without the innermost statement, item or call that holds a place; or, where the text has no tokens, without the line of the
/// place, whose tokens are told up to the place. The text has at most `MAX_TEXT_BYTES` bytes.
pub fn without(alloc: Global, text: &[u8], span: Span) -> Result<Remains, NoMemory>
    requires { length text.now ≤ MAX_TEXT_BYTES }
    ensures taken { IfOk result (λ it. TakesOutPart text.now span it.left.items it.gone.items) }
    ensures length { IfOk result (λ it. length it.left.items ≡ length text.now) }
{
    match lex(alloc, text) {
        Ok(tokens) => {
            let part = stretch_of(text.len(), span.at, &tokens);
            take_out(alloc, text, part, part.to)
        }
        Err(Refused::NoMemory) => Err(NoMemory),
        Err(Refused::Fault(_)) => take_out(alloc, text, line_of(text, span), span.at as usize),
    }
}

fn take_out(alloc: Global, text: &[u8], stretch: Stretch, read: usize) -> Result<Remains, NoMemory>
    requires { length text.now ≤ MAX_TEXT_BYTES }
    ensures left { IfOk result (λ it. IsTextWithout text.now stretch read it.left.items it.gone.items) }
    ensures length { IfOk result (λ it. length it.left.items ≡ length text.now) }
{
    let left = taken_out(alloc, text, stretch)?;
    let gone = tokens_of(alloc, bytes_between(text, stretch.from, read))?;
    Ok(Remains { left, gone })
}

#[tactic(auto, using(crate::proofs::RemainsLemmas::same_length))]
fn taken_out(alloc: Global, text: &[u8], stretch: Stretch) -> Result<Vec<u8>, NoMemory>
    ensures left { IfOk result (λ left. left.items ≡ taken_out text.now stretch) }
    ensures length { IfOk result (λ left. length left.items ≡ length text.now) }
{
    let (front, rest) = split(text, stretch.from);
    let (part, behind) = split(rest, stretch.to.saturating_sub(stretch.from));
    let mut left = Vec::new(alloc);
    left.extend_from_slice(front)?;
    add_blanks(&mut left, part)?;
    left.extend_from_slice(behind)?;
    Ok(left)
}

fn add_blanks(left: &mut Vec<u8>, part: &[u8]) -> Result<(), NoMemory>
    ensures { OnOk result (left.new.items ≡ left.old.items ++ map blank part.now) }
{
    for byte in part {
        left.push(blank(*byte))?;
    }
    Ok(())
}

fn blank(byte: u8) -> u8
    ensures { result ≡ blank byte }
{
    if byte == b'\n' { b'\n' } else { b' ' }
}

fn bytes_between(text: &[u8], from: usize, to: usize) -> &[u8]
    ensures value { result.now ≡ bytes_between from to text.now }
    ensures within { length result.now ≤ length text.now }
{
    split(split(text, from).1, to.saturating_sub(from)).0
}

/// The bytes up to a place, and those from it on; a place behind the text's end is its end.
fn split(text: &[u8], at: usize) -> (&[u8], &[u8])
    ensures front { result.0.now ≡ take at text.now }
    ensures rest { result.1.now ≡ drop at text.now }
    ensures front_within { length result.0.now ≤ length text.now }
    ensures rest_within { length result.1.now ≤ length text.now }
{
    if at <= text.len() {
        text.split_at(at)
    } else {
        (text, &[])
    }
}

/// The line in which a place is.
fn line_of(text: &[u8], span: Span) -> Stretch
    ensures { result ≡ line_of text.now span }
{
    let from = (span.at as usize + 1).saturating_sub(span.col as usize);
    let len = line_len(split(text, from).1);
    Stretch {
        from,
        to: from + len,
    }
}

/// How many bytes come before the next line feed.
pub fn line_len(rest: &[u8]) -> usize
    ensures len { result ≡ prefix_len is_line_byte rest.now }
    ensures within { result ≤ length rest.now }
{
    rest.iter().take_while(|byte| is_line_byte(**byte)).count()
}

fn is_line_byte(byte: u8) -> bool
    ensures { result ≡ is_line_byte byte }
{
    byte != b'\n'
}

fn tokens_of(alloc: Global, bytes: &[u8]) -> Result<Vec<Token>, NoMemory>
    requires { length bytes.now ≤ MAX_TEXT_BYTES }
    ensures { IfOk result (λ tokens. AreTokensOf bytes.now tokens.items) }
{
    match lex(alloc, bytes) {
        Ok(tokens) => Ok(tokens),
        Err(Refused::NoMemory) => Err(NoMemory),
        Err(Refused::Fault(_)) => Ok(Vec::new(alloc)),
    }
}
