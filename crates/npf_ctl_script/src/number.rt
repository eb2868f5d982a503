// The numbers of a script: decimal, without a sign or a leading zero.
ghost use Rattle.std.specs.Prelude.{◌≢◌, ◌^◌, slice_index};
ghost use Rattle.npf_types.specs.Reading.{IsReading};
ghost use Rattle.npf_ctl_script.specs.Numbers.{IsNumberBelow, IsNumeralBelow};

use std::str;

/// The number that the word writes, where it fits.
pub(crate) fn number_of(word: &[u8]) -> Option<u64>
    ensures { IsReading (IsNumberBelow (2 ^ 64)) word.now result }
{
    let Some(first) = word.first() else {
        return None;
    };
    if *first == b'+' || (*first == b'0' && word.len() > 1) {
        return None;
    }
    numeral_of(word)
}

/// The same, where it fits in 32 bits.
pub(crate) fn short_number_of(word: &[u8]) -> Option<u32>
    ensures { IsReading (IsNumberBelow (2 ^ 32)) word.now result }
{
    let Some(number) = number_of(word) else {
        return None;
    };
    if number > u64::from(u32::MAX) {
        return None;
    }
    Some(number as u32)
}

/// The number that the digits write, where it fits. Zeros may lead.
pub(crate) fn numeral_of(digits: &[u8]) -> Option<u64>
    requires { slice_index digits.now 0 ≢ 43 }
    ensures { IsReading (IsNumeralBelow (2 ^ 64)) digits.now result }
{
    let Ok(text) = str::from_utf8(digits) else {
        return None;
    };
    match text.parse::<u64>() {
        Ok(number) => Some(number),
        Err(_) => None,
    }
}
