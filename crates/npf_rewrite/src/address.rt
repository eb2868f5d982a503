// The words of addresses (RFC 791 section 3.1, RFC 8200 section 3).
ghost use Rattle.std.specs.Prelude.{◌≡◌, ◌+◌, ◌<◌, ◌≤◌, ◌^◌, length};
ghost use Rattle.npf_rewrite.specs.Address.{end_words, word_of, words_v4, words_v6};
ghost use Rattle.npf_rewrite.specs.Sum.{sum_after};
ghost use Rattle.npf_rewrite.specs.Word.{AllWithin, Rewrites};

use crate::sum::sum_after;
use crate::word::{WordAt, write_words};
use npf_types::{Addr, End};

/// Writes the address of an end, where there is one.
pub fn write_end(bytes: &mut [u8], at: usize, end: &Option<End>)
    requires room { AllWithin (length bytes.old) (end_words at end.now) }
    requires place { at < 2 ^ 33 }
    ensures { Rewrites bytes.old (end_words at end.now) bytes.new }
{
    if let Some(end) = *end {
        match end.addr {
            Addr::V4(a) => write_words(bytes, &words_v4(at, a)),
            Addr::V6(a) => write_words(bytes, &words_v6(at, a)),
        }
    }
}

/// The sum once the address of an end is written.
pub fn sum_after_end(zero: u16, bytes: &[u8], at: usize, end: &Option<End>, sum: u16) -> u16
    requires room { AllWithin (length bytes.now) (end_words at end.now) }
    requires place { at < 2 ^ 33 }
    ensures { result ≡ sum_after zero bytes.now (end_words at end.now) sum }
{
    match *end {
        Some(end) => match end.addr {
            Addr::V4(a) => sum_after(zero, bytes, &words_v4(at, a), sum),
            Addr::V6(a) => sum_after(zero, bytes, &words_v6(at, a), sum),
        },
        None => sum,
    }
}

fn words_v4(at: usize, a: u32) -> [WordAt; 2]
    requires { at < 2 ^ 33 }
    ensures { result ≡ words_v4 at a }
{
    let a = u128::from(a);
    [
        WordAt {
            at,
            value: word_of(a, 16),
        },
        WordAt {
            at: at + 2,
            value: word_of(a, 0),
        },
    ]
}

fn words_v6(at: usize, a: u128) -> [WordAt; 8]
    requires { at < 2 ^ 33 }
    ensures { result ≡ words_v6 at a }
{
    [
        WordAt {
            at,
            value: word_of(a, 112),
        },
        WordAt {
            at: at + 2,
            value: word_of(a, 96),
        },
        WordAt {
            at: at + 4,
            value: word_of(a, 80),
        },
        WordAt {
            at: at + 6,
            value: word_of(a, 64),
        },
        WordAt {
            at: at + 8,
            value: word_of(a, 48),
        },
        WordAt {
            at: at + 10,
            value: word_of(a, 32),
        },
        WordAt {
            at: at + 12,
            value: word_of(a, 16),
        },
        WordAt {
            at: at + 14,
            value: word_of(a, 0),
        },
    ]
}

/// The 16 bits of a number above so many.
fn word_of(a: u128, below: u32) -> u16
    requires { below < 128 }
    ensures { result ≡ word_of a below }
{
    (a >> below & 0xffff) as u16
}
