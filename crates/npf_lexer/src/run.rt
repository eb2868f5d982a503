// Runs: numbers, addresses and words. The texts of addresses are std's relations.
ghost use Rattle.std.specs.Prelude.{◌≡◌, ◌+◌, ◌≤◌, IfOk, IsTrue, ℕ, MatchOption, length, take, true};
ghost use Rattle.npf_lexer.specs.Run.{goes_on, longest_run, ends_in_colon, run_len, is_decimal, number_run, is_word, word_run, is_no_colon, IsAddressOrWord, ReadsRun};
ghost use Rattle.std.specs.Char.{is_ascii_digit};
ghost use Rattle.std.specs.List.{list_all};

use crate::byte_class::is_run_byte;
use crate::token::TokenKind;
use npf_types::{Addr, List, NoMemory};
use std::alloc::Global;
use std::str;

/// What a run of letters, digits, `_`, `.`, `:` and `-` is.
#[derive(Debug, Drop)]
pub(crate) enum RunKind {
    Kind(TokenKind),
    /// Digits whose number doesn't fit in 32 bits.
    TooLarge,
    Nothing,
}

/// How many bytes of the text the run has that begins it; a single `:` at its end is left out.
pub(crate) fn run_len(text: &[u8]) -> usize
    requires { 1 ≤ length text.now }
    ensures len { result ≡ run_len text.now }
    ensures within { result ≤ length text.now }
{
    let longest = longest_run(text[0].is_ascii_alphabetic(), text);
    if ends_in_colon(longest, text) {
        longest - 1
    } else {
        longest
    }
}

fn longest_run(lettered: bool, text: &[u8]) -> usize
    ensures len { result ≡ longest_run lettered text.now }
    ensures within { result ≤ length text.now }
{
    let mut len = 0;
    while len < text.len() && goes_on(lettered, text.split_at(len).1) {
        len += 1;
    }
    len
}

fn goes_on(lettered: bool, rest: &[u8]) -> bool
    requires { 1 ≤ length rest.now }
    ensures { result ≡ goes_on lettered rest.now }
{
    is_run_byte(rest[0])
        || lettered
            && rest[0] == b'-'
            && rest.get(1).is_some_and(|next| next.is_ascii_alphanumeric())
}

fn ends_in_colon(len: usize, text: &[u8]) -> bool
    requires { len ≤ length text.now }
    ensures value { result ≡ ends_in_colon len text.now }
    ensures some { IsTrue result → 1 ≤ len }
{
    match len {
        0 => false,
        1 => text[0] == b':',
        _ => text[len - 1] == b':' && text[len - 2] != b':',
    }
}

/// What the run is: the first of a number, an address and a word that fits.
pub(crate) fn run_of(alloc: Global, run: &[u8]) -> Result<RunKind, NoMemory>
    ensures { IfOk result (ReadsRun run.now) }
{
    if is_decimal(run) {
        return Ok(number_run(run));
    }
    match Addr::parse_ascii(run) {
        Some(address) => Ok(RunKind::Kind(TokenKind::Address(address))),
        None => word_run(alloc, run),
    }
}

fn is_decimal(run: &[u8]) -> bool
    ensures { result ≡ is_decimal run.now }
{
    run.first().is_some_and(|first| first.is_ascii_digit()) && are_digits(run)
}

fn are_digits(run: &[u8]) -> bool
    ensures { result ≡ list_all is_ascii_digit run.now }
{
    run.iter().all(|byte| byte.is_ascii_digit())
}

fn number_run(run: &[u8]) -> RunKind
    requires { is_decimal run.now ≡ true }
    ensures { result ≡ number_run run.now }
{
    let Ok(digits) = str::from_utf8(run) else {
        return RunKind::Nothing;
    };
    match digits.parse::<u32>() {
        Ok(number) => RunKind::Kind(TokenKind::Number(number)),
        Err(_) => RunKind::TooLarge,
    }
}

fn word_run(alloc: Global, run: &[u8]) -> Result<RunKind, NoMemory>
    ensures { IfOk result (λ is. is ≡ word_run run.now) }
{
    if !is_word(run) {
        return Ok(RunKind::Nothing);
    }
    Ok(RunKind::Kind(TokenKind::Word(List::of_vec(run.to_vec(alloc)?))))
}

fn is_word(run: &[u8]) -> bool
    ensures { result ≡ is_word run.now }
{
    run.first().is_some_and(|first| first.is_ascii_alphabetic()) && has_no_colon(run)
}

fn has_no_colon(run: &[u8]) -> bool
    ensures { result ≡ list_all is_no_colon run.now }
{
    run.iter().all(|byte| *byte != b':')
}
