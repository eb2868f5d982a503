// The text of an entry: an address, or an address with the length of its block.
ghost use Rattle.std.specs.Prelude.{◌≡◌, ◌==◌, ◌≢◌, position, slice_index};
ghost use Rattle.npf_table.specs.PrefixText.{IsPrefixText, IsHostText, IsBlockText, IsByteLengthText, IsByteNumber};
ghost use Rattle.npf_types.specs.Reading.{IsReading};

use npf_types::{Addr, Prefix};
use std::str;

/// The prefix that the text writes, as an address, or an address, a slash and a length; None where it writes none.
pub fn written_prefix(text: &[u8]) -> Option<Prefix>
    ensures { IsReading IsPrefixText text.now result }
{
    match first_place(text, b'/') {
        None => host(text),
        Some(at) => block(&text[..at], &text[at + 1..]),
    }
}

fn host(text: &[u8]) -> Option<Prefix>
    ensures { IsReading IsHostText text.now result }
{
    match Addr::parse_ascii(text) {
        Some(addr) => Prefix::of(addr, addr.width()),
        None => None,
    }
}

fn block(address: &[u8], digits: &[u8]) -> Option<Prefix>
    ensures { IsReading (IsBlockText address.now) digits.now result }
{
    let Some(addr) = Addr::parse_ascii(address) else {
        return None;
    };
    let Some(len) = length_of(digits) else {
        return None;
    };
    Prefix::of(addr, len)
}

// The length, where it fits a byte; a longer one is longer than any address.
fn length_of(digits: &[u8]) -> Option<u8>
    ensures { IsReading IsByteLengthText digits.now result }
{
    let Some(first) = digits.first() else {
        return None;
    };
    if *first == b'+' || (*first == b'0' && digits.len() > 1) {
        return None;
    }
    number_of(digits)
}

fn number_of(digits: &[u8]) -> Option<u8>
    requires { slice_index digits.now 0 ≢ 43 }
    ensures { IsReading IsByteNumber digits.now result }
{
    let Ok(text) = str::from_utf8(digits) else {
        return None;
    };
    match text.parse::<u8>() {
        Ok(number) => Some(number),
        Err(_) => None,
    }
}

/// The first place, from 0, at which the byte stands; None where it doesn't stand there.
pub fn first_place(text: &[u8], byte: u8) -> Option<usize>
    ensures { result ≡ position (λ b. b == byte) text.now }
{
    text.iter().position(|b| *b == byte)
}
