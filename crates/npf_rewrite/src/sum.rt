// Sums that follow the words that change (RFC 1624).
ghost use Rattle.std.specs.Prelude.{◌≡◌, ◌≤◌, length};
ghost use Rattle.npf_rewrite.specs.Sum.{sum_after, sum_after_word};
ghost use Rattle.npf_rewrite.specs.Word.{AllWithin, word_list};

use crate::word::WordAt;
use npf_fields::{get16, sum_adjust};

/// A sum of which 0 is a value as any other.
pub const ZERO: u16 = 0;

/// What stands for a sum of 0 in UDP, where 0 says that there is none (RFC 768).
pub const UDP_ZERO: u16 = 0xffff;

/// The sum once these words are written, where a sum that comes to 0 is written as `zero`.
pub(crate) fn sum_after(zero: u16, bytes: &[u8], words: &[WordAt], sum: u16) -> u16
    requires { AllWithin (length bytes.now) words.now }
    ensures { result ≡ sum_after zero bytes.now words.now sum }
{
    let mut adjusted = sum;
    for word in words {
        adjusted = sum_after_word(zero, adjusted, get16(bytes, word.at), word.value);
    }
    adjusted
}

/// The sum once this word is written, where there is one.
pub fn sum_after_named(zero: u16, bytes: &[u8], word: Option<WordAt>, sum: u16) -> u16
    requires { AllWithin (length bytes.now) (word_list word) }
    ensures { result ≡ sum_after zero bytes.now (word_list word) sum }
{
    match word {
        Some(word) => sum_after_word(zero, sum, get16(bytes, word.at), word.value),
        None => sum,
    }
}

/// The sum after the word `old` became `new`; a word that stays changes nothing.
pub(crate) fn sum_after_word(zero: u16, sum: u16, old: u16, new: u16) -> u16
    ensures { result ≡ sum_after_word zero sum old new }
{
    if old == new {
        return sum;
    }
    match sum_adjust(sum, old, new) {
        0 => zero,
        adjusted => adjusted,
    }
}
