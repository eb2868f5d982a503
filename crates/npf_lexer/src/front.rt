// What begins at a place, by the class of its first byte.
ghost use Rattle.std.specs.Prelude.{◌≡◌, ◌≤◌, ◌-◌, IfOk, length, slice_index};
ghost use Rattle.std.specs.List.{prefix_len};
ghost use Rattle.npf_lexer.specs.ByteClass.{is_line_byte, is_string_byte, is_variable_byte, byte_class};
ghost use Rattle.npf_lexer.specs.Front.{Begins, BeginsWith, AdvancesWithin, Fits, IsRunFront, backslash_front, string_front, variable_front, sign_front, run_front, token_front, line_feed, faulty, skipped};
ghost use Rattle.npf_lexer.specs.Run.{run_len};
ghost use Rattle.npf_lexer.specs.Sign.{sign_at};

use crate::byte_class::{
    ByteClass, byte_class, is_line_byte, is_string_byte, is_variable_byte, is_variable_start,
};
use crate::place::TextPlace;
use crate::run::{RunKind, run_len, run_of};
use crate::sign::sign_at;
use crate::token::{Sign, Token, TokenKind};
use npf_faults::{ConfFault, Fault};
use npf_types::limits::MAX_TEXT_BYTES;
use npf_types::{List, NoMemory};
use std::alloc::Global;

/// What begins at a place: how many bytes it has, and the place behind it.
#[derive(Debug, Drop)]
pub(crate) enum Front {
    End,
    Skipped(usize, TextPlace),
    Found(Token, usize, TextPlace),
    Faulty(ConfFault),
}

pub(crate) fn front_at(alloc: Global, place: TextPlace, text: &[u8]) -> Result<Front, NoMemory>
    requires { Fits place (length text.now) }
    ensures begins { IfOk result (Begins place text.now) }
    ensures step { IfOk result (AdvancesWithin (length text.now)) }
{
    match text.first() {
        Some(first) => front_of_class(alloc, byte_class(*first), place, text),
        None => Ok(Front::End),
    }
}

fn front_of_class(
    alloc: Global,
    class: ByteClass,
    place: TextPlace,
    text: &[u8],
) -> Result<Front, NoMemory>
    requires fits { Fits place (length text.now) }
    requires some { 1 ≤ length text.now }
    requires class { class ≡ byte_class (slice_index text.now 0) }
    ensures begins { IfOk result (BeginsWith class place text.now) }
    ensures step { IfOk result (AdvancesWithin (length text.now)) }
{
    match class {
        ByteClass::Blank => Ok(Front::Skipped(1, place.along(1))),
        ByteClass::LineFeed => Ok(line_feed(place)),
        ByteClass::Semicolon => Ok(found(TokenKind::Semicolon, 1, place)),
        ByteClass::Backslash => Ok(backslash_front(place, text)),
        ByteClass::Comment => Ok(comment_front(place, text)),
        ByteClass::Quote => string_front(alloc, place, text),
        ByteClass::Dollar => variable_front(alloc, place, text),
        ByteClass::Run => run_or_colon_front(alloc, place, text),
        ByteClass::Other => Ok(sign_front(place, text)),
    }
}

fn found(kind: TokenKind, len: usize, place: TextPlace) -> Front
    requires len { len ≤ MAX_TEXT_BYTES }
    requires fits { Fits place len }
    ensures { result ≡ token_front kind len place }
{
    let token = Token {
        kind,
        span: place.span(len),
    };
    Front::Found(token, len, place.along(len))
}

fn line_feed(place: TextPlace) -> Front
    requires { Fits place 1 }
    ensures { result ≡ line_feed place }
{
    let token = Token {
        kind: TokenKind::LineFeed,
        span: place.span(1),
    };
    Front::Found(token, 1, place.over_line(1))
}

fn faulty(fault: Fault, len: usize, place: TextPlace) -> Front
    requires { len ≤ MAX_TEXT_BYTES }
    ensures { result ≡ faulty fault len place }
{
    Front::Faulty(ConfFault {
        span: place.span(len),
        fault,
    })
}

fn backslash_front(place: TextPlace, text: &[u8]) -> Front
    requires fits { Fits place (length text.now) }
    requires some { 1 ≤ length text.now }
    ensures begins { result ≡ backslash_front place text.now }
    ensures step { AdvancesWithin (length text.now) result }
{
    match text.get(1) {
        Some(b'\n') => Front::Skipped(2, place.over_line(2)),
        _ => faulty(Fault::BadByte, 1, place),
    }
}

fn comment_front(place: TextPlace, text: &[u8]) -> Front
    requires fits { Fits place (length text.now) }
    requires some { 1 ≤ length text.now }
    requires comment { slice_index text.now 0 ≡ 35 }
    ensures begins { result ≡ skipped (prefix_len is_line_byte text.now) place }
    ensures step { AdvancesWithin (length text.now) result }
{
    let len = line_len(text);
    Front::Skipped(len, place.along(len))
}

/// How many bytes come before the line's end.
fn line_len(text: &[u8]) -> usize
    ensures len { result ≡ prefix_len is_line_byte text.now }
    ensures within { result ≤ length text.now }
{
    text.iter().take_while(|byte| is_line_byte(**byte)).count()
}

fn string_front(alloc: Global, place: TextPlace, text: &[u8]) -> Result<Front, NoMemory>
    requires fits { Fits place (length text.now) }
    requires some { 1 ≤ length text.now }
    ensures begins { IfOk result (λ front. front ≡ string_front place text.now) }
    ensures step { IfOk result (AdvancesWithin (length text.now)) }
{
    let inside = text.split_at(1).1;
    let len = string_len(inside);
    match inside.get(len) {
        Some(b'"') => {
            let string = inside.split_at(len).0.to_vec(alloc)?;
            Ok(found(TokenKind::Str(List::of_vec(string)), len + 2, place))
        }
        _ => Ok(faulty(Fault::OpenString, 1, place)),
    }
}

/// How many bytes come before the next quote or the line's end.
fn string_len(inside: &[u8]) -> usize
    ensures len { result ≡ prefix_len is_string_byte inside.now }
    ensures within { result ≤ length inside.now }
{
    inside
        .iter()
        .take_while(|byte| is_string_byte(**byte))
        .count()
}

fn variable_front(alloc: Global, place: TextPlace, text: &[u8]) -> Result<Front, NoMemory>
    requires fits { Fits place (length text.now) }
    requires some { 1 ≤ length text.now }
    ensures begins { IfOk result (λ front. front ≡ variable_front place text.now) }
    ensures step { IfOk result (AdvancesWithin (length text.now)) }
{
    let name = text.split_at(1).1;
    match name.first() {
        Some(first) if is_variable_start(*first) => {
            let len = variable_len(name);
            let bytes = name.split_at(len).0.to_vec(alloc)?;
            Ok(found(TokenKind::Var(List::of_vec(bytes)), len + 1, place))
        }
        _ => Ok(faulty(Fault::BadByte, 1, place)),
    }
}

/// How many bytes of a variable's name stand at the front.
fn variable_len(name: &[u8]) -> usize
    ensures len { result ≡ prefix_len is_variable_byte name.now }
    ensures within { result ≤ length name.now }
{
    name.iter()
        .take_while(|byte| is_variable_byte(**byte))
        .count()
}

fn run_or_colon_front(alloc: Global, place: TextPlace, text: &[u8]) -> Result<Front, NoMemory>
    requires fits { Fits place (length text.now) }
    requires some { 1 ≤ length text.now }
    ensures begins { IfOk result (IsRunFront place text.now) }
    ensures step { IfOk result (AdvancesWithin (length text.now)) }
{
    let len = run_len(text);
    if len == 0 {
        return Ok(found(TokenKind::Sign(Sign::Colon), 1, place));
    }
    let run = run_of(alloc, text.split_at(len).0)?;
    Ok(run_front(run, len, place))
}

fn run_front(run: RunKind, len: usize, place: TextPlace) -> Front
    requires len { len ≤ MAX_TEXT_BYTES }
    requires fits { Fits place len }
    ensures { result ≡ run_front len place run }
{
    match run {
        RunKind::Kind(kind) => found(kind, len, place),
        RunKind::TooLarge => faulty(Fault::NumberTooLarge, len, place),
        RunKind::Nothing => faulty(Fault::BadByte, 1, place),
    }
}

fn sign_front(place: TextPlace, text: &[u8]) -> Front
    requires fits { Fits place (length text.now) }
    requires some { 1 ≤ length text.now }
    ensures begins { result ≡ sign_front place (sign_at text.now) }
    ensures step { AdvancesWithin (length text.now) result }
{
    match sign_at(text) {
        Some(sign) => found(TokenKind::Sign(sign), sign.text().len(), place),
        None => faulty(Fault::BadByte, 1, place),
    }
}
