// A moment, in seconds with an optional fraction.
ghost use Rattle.std.specs.Prelude.{◌≡◌, ◌≤◌, ◌<◌, ◌-◌, ◌^◌, IfSome};
ghost use Rattle.npf_types.specs.Reading.{IsReading};
ghost use Rattle.npf_ctl_script.specs.Numbers.{IsFraction, IsPartedSeconds, IsSeconds, IsWholeSeconds};

use crate::number::{numeral_of, short_number_of};
use npf_table::first_place;

/// The digits that a fraction may have: it counts nanoseconds.
const MAX_DIGITS: usize = 9;

const NANOSECONDS_PER_SECOND: u64 = 1_000_000_000;

/// The moment that the word writes, in nanoseconds.
pub(crate) fn seconds_of(word: &[u8]) -> Option<u64>
    ensures { IsReading IsSeconds word.now result }
{
    match first_place(word, b'.') {
        None => whole_seconds(word),
        Some(at) => parted_seconds(&word[..at], &word[at + 1..]),
    }
}

fn whole_seconds(digits: &[u8]) -> Option<u64>
    ensures value { IsReading IsWholeSeconds digits.now result }
    ensures most { IfSome result (λ time. time ≤ 4294967295000000000) }
{
    let Some(seconds) = short_number_of(digits) else {
        return None;
    };
    Some(u64::from(seconds) * NANOSECONDS_PER_SECOND)
}

fn parted_seconds(digits: &[u8], fraction: &[u8]) -> Option<u64>
    ensures { IsReading (IsPartedSeconds digits.now) fraction.now result }
{
    let Some(start) = whole_seconds(digits) else {
        return None;
    };
    let Some(nanoseconds) = fraction_of(fraction) else {
        return None;
    };
    Some(start + nanoseconds)
}

fn fraction_of(digits: &[u8]) -> Option<u64>
    ensures value { IsReading IsFraction digits.now result }
    ensures most { IfSome result (λ nanoseconds. nanoseconds < 1000000000) }
{
    let Some(first) = digits.first() else {
        return None;
    };
    if *first == b'+' || digits.len() > MAX_DIGITS {
        return None;
    }
    let Some(number) = numeral_of(digits) else {
        return None;
    };
    Some(number * scale(digits.len()))
}

/// What a fraction's last digit counts, of so many digits.
fn scale(digits: usize) -> u64
    requires { digits ≤ 9 }
    ensures { result ≡ 10 ^ (9 - digits) }
{
    10u64.pow((MAX_DIGITS - digits) as u32)
}
