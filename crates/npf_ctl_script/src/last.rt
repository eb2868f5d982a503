// The last word of a line.
ghost use Rattle.std.specs.Prelude.{◌≡◌, ◌^◌, ◌↔◌, IsTrue, codes};
ghost use Rattle.npf_ctl_script.specs.Arguments.{IsLast, IsPacketCount};
ghost use Rattle.npf_ctl_script.specs.Numbers.{IsNumberBelow, IsSeconds};
ghost use Rattle.npf_ctl_script.specs.Words.{IsFound};
ghost use Rattle.npf_table.specs.PrefixText.{IsPrefixText};

use crate::number::{number_of, short_number_of};
use crate::seconds::seconds_of;
use crate::words::only_word;
use npf_table::written_prefix;
use npf_types::Prefix;

/// The number of a rule.
pub(crate) fn last_number(text: &[u8]) -> Option<u32>
    ensures { IsFound (IsLast (IsNumberBelow (2 ^ 32))) text.now result }
{
    let Some(word) = only_word(text) else {
        return None;
    };
    short_number_of(word)
}

/// An address or a prefix.
pub(crate) fn last_prefix(text: &[u8]) -> Option<Prefix>
    ensures { IsFound (IsLast IsPrefixText) text.now result }
{
    let Some(word) = only_word(text) else {
        return None;
    };
    written_prefix(word)
}

/// A moment, in nanoseconds.
pub(crate) fn last_moment(text: &[u8]) -> Option<u64>
    ensures { IsFound (IsLast IsSeconds) text.now result }
{
    let Some(word) = only_word(text) else {
        return None;
    };
    seconds_of(word)
}

/// How many packets a phase has, None for all that are left.
pub(crate) fn last_count(text: &[u8]) -> Option<Option<u64>>
    ensures { IsFound (IsLast IsPacketCount) text.now result }
{
    let Some(word) = only_word(text) else {
        return None;
    };
    packet_count(word)
}

fn packet_count(word: &[u8]) -> Option<Option<u64>>
    ensures { IsFound IsPacketCount word.now result }
{
    if is_rest(word) {
        return Some(None);
    }
    match number_of(word) {
        Some(count) => Some(Some(count)),
        None => None,
    }
}

fn is_rest(word: &[u8]) -> bool
    ensures { IsTrue result ↔ (word.now ≡ codes "rest") }
{
    matches!(word, b"rest")
}
