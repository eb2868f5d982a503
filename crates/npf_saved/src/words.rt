// The words of a line, and the numbers that they spell. Each reader answers at every word: with
// what the word spells, or else with anything. `line` spells its answer again and compares.
ghost use Rattle.std.specs.Prelude.{◌≡◌, ◌↔◌, ◌<◌, ◌^◌, ◌==◌, ℕ, Bool, Option, IfSome, IsTrue, codes, position};
ghost use Rattle.std.specs.Fmt.{decimal};
ghost use Rattle.std.specs.Int.{w16, w32, w64};
ghost use Rattle.std.specs.List.{before_first, after_first};
ghost use Rattle.npf_saved.specs.Spelling.{bit_text, hex_text, or_dash};

use std::str;

/// What stands before the first mark, and what stands behind it; all and nothing where there is
/// none.
pub(crate) fn cut(text: &[u8], mark: u8) -> (&[u8], &[u8])
    ensures word { result.0.now ≡ before_first (λ byte. byte == mark) text.now }
    ensures behind { result.1.now ≡ after_first (λ byte. byte == mark) text.now }
{
    match first_place(text, mark) {
        Some(at) => (&text[..at], &text[at + 1..]),
        None => (text, &[]),
    }
}

fn first_place(text: &[u8], mark: u8) -> Option<usize>
    ensures { result ≡ position (λ byte. byte == mark) text.now }
{
    text.iter().position(|byte| *byte == mark)
}

/// Whether the word says that there is nothing.
pub(crate) fn is_dash(word: &[u8]) -> bool
    ensures { IsTrue result ↔ (word.now ≡ codes "-") }
{
    matches!(word, b"-")
}

pub(crate) fn guess_bit(word: &[u8]) -> bool
    ensures { (bit : Bool) → word.now ≡ bit_text bit → result ≡ bit }
{
    matches!(word, b"1")
}

/// A decimal number.
pub(crate) fn guess_number(word: &[u8]) -> u64
    ensures { (n : ℕ) → n < 2 ^ 64 → word.now ≡ decimal n → result ≡ n }
{
    let Ok(text) = str::from_utf8(word) else {
        return 0;
    };
    text.parse::<u64>().unwrap_or(0)
}

pub(crate) fn guess_u32(word: &[u8]) -> u32
    ensures { (n : ℕ) → n < 2 ^ 32 → word.now ≡ decimal n → result ≡ n }
{
    u32::try_from(guess_number(word)).unwrap_or(0)
}

pub(crate) fn guess_optional_byte(word: &[u8]) -> Option<u8>
    ensures value { (number : Option ℕ) → IfSome number (λ n. n < 2 ^ 8)
        → word.now ≡ or_dash decimal number → result ≡ number }
    ensures fits { IfSome result (λ n. n < 2 ^ 8) }
{
    if is_dash(word) {
        return None;
    }
    Some(u8::try_from(guess_number(word)).unwrap_or(0))
}

pub(crate) fn guess_optional_size(word: &[u8]) -> Option<u16>
    ensures value { (number : Option ℕ) → IfSome number (λ n. n < 2 ^ 16)
        → word.now ≡ or_dash decimal number → result ≡ number }
    ensures fits { IfSome result (λ n. n < 2 ^ 16) }
{
    if is_dash(word) {
        return None;
    }
    Some(u16::try_from(guess_number(word)).unwrap_or(0))
}

/// Sixteen hexadecimal digits.
pub(crate) fn guess_word(word: &[u8]) -> u64
    ensures { (n : ℕ) → n < 2 ^ 64 → word.now ≡ hex_text w64 n → result ≡ n }
{
    let mut bytes = [0u8; 8];
    let _ = hex::decode_to_slice(word, &mut bytes);
    u64::from_be_bytes(bytes)
}

/// Eight.
pub(crate) fn guess_half_word(word: &[u8]) -> u32
    ensures { (n : ℕ) → n < 2 ^ 32 → word.now ≡ hex_text w32 n → result ≡ n }
{
    let mut bytes = [0u8; 4];
    let _ = hex::decode_to_slice(word, &mut bytes);
    u32::from_be_bytes(bytes)
}

/// Four, or a dash.
pub(crate) fn guess_optional_port(word: &[u8]) -> Option<u16>
    ensures value { (port : Option ℕ) → IfSome port (λ n. n < 2 ^ 16)
        → word.now ≡ or_dash (hex_text w16) port → result ≡ port }
    ensures fits { IfSome result (λ n. n < 2 ^ 16) }
{
    if is_dash(word) {
        return None;
    }
    let mut bytes = [0u8; 2];
    let _ = hex::decode_to_slice(word, &mut bytes);
    Some(u16::from_be_bytes(bytes))
}
