// The keys and the translation of a connection's line. Where a word spells one, it is the answer;
// `line` finds out.
ghost use Rattle.std.specs.Prelude.{◌≡◌, Option, IfSome};
ghost use Rattle.npf_types.specs.declared.action.Action.{Action as ActionType};
ghost use Rattle.npf_types.specs.declared.address.Addr.{Addr as AddrType};
ghost use Rattle.npf_types.specs.declared.change.Change.{Change as ChangeType};
ghost use Rattle.npf_types.specs.declared.change.End.{End as EndType};
ghost use Rattle.npf_types.specs.declared.key.Key.{Key as KeyType};
ghost use Rattle.npf_types.specs.declared.name.Name.{Name as NameType};
ghost use Rattle.npf_types.specs.Name.{name_bytes};
ghost use Rattle.npf_saved.specs.Fields.{FitsAction, FitsAddrText, FitsChange, FitsEnd, FitsKeyText, FitsName};
ghost use Rattle.npf_saved.specs.Spelling.{action_text, addr_text, change_text, end_text, key_text, or_dash};

use crate::words::{
    cut, guess_bit, guess_half_word, guess_optional_byte, guess_optional_port, guess_optional_size,
    guess_word, is_dash,
};
use npf_types::{Action, Addr, Change, End, Key, Name};

/// The digits of an IPv6 address, and of each half of one.
const V6_DIGITS: usize = 32;

const HALF_DIGITS: usize = 16;

pub(crate) fn guess_key(word: &[u8]) -> Key
    ensures value { (key : KeyType) → FitsKeyText key → word.now ≡ key_text key → result ≡ key }
    ensures fits { FitsKeyText result }
{
    let (first, rest) = cut(word, b'.');
    let (second, rest) = cut(rest, b'.');
    let (third, rest) = cut(rest, b'.');
    let (fourth, fifth) = cut(rest, b'.');
    Key([
        guess_word(first),
        guess_word(second),
        guess_word(third),
        guess_word(fourth),
        guess_word(fifth),
    ])
}

pub(crate) fn guess_optional_key(word: &[u8]) -> Option<Key>
    ensures value { (key : Option KeyType) → IfSome key FitsKeyText
        → word.now ≡ or_dash key_text key → result ≡ key }
    ensures fits { IfSome result FitsKeyText }
{
    if is_dash(word) {
        return None;
    }
    Some(guess_key(word))
}

pub(crate) fn guess_change(word: &[u8]) -> Change
    ensures value { (change : ChangeType) → FitsChange change
        → word.now ≡ change_text change → result ≡ change }
    ensures fits { FitsChange result }
{
    let (src, rest) = cut(word, b'/');
    let (dst, neutral) = cut(rest, b'/');
    Change {
        src: guess_optional_end(src),
        dst: guess_optional_end(dst),
        neutral: guess_bit(neutral),
    }
}

fn guess_optional_end(word: &[u8]) -> Option<End>
    ensures value { (end : Option EndType) → IfSome end FitsEnd
        → word.now ≡ or_dash end_text end → result ≡ end }
    ensures fits { IfSome result FitsEnd }
{
    if is_dash(word) {
        return None;
    }
    let (addr, port) = cut(word, b'+');
    Some(End {
        addr: guess_addr(addr),
        port: guess_optional_port(port),
    })
}

fn guess_addr(word: &[u8]) -> Addr
    ensures value { (addr : AddrType) → FitsAddrText addr
        → word.now ≡ addr_text addr → result ≡ addr }
    ensures fits { FitsAddrText result }
{
    if word.len() < V6_DIGITS {
        return Addr::V4(guess_half_word(word));
    }
    let (upper, lower) = word.split_at(HALF_DIGITS);
    Addr::V6(u128::from(guess_word(upper)) * (1 << 64) + u128::from(guess_word(lower)))
}

pub(crate) fn guess_action(word: &[u8]) -> Action
    ensures value { (action : ActionType) → FitsAction action
        → word.now ≡ action_text action → result ≡ action }
    ensures fits { FitsAction result }
{
    let (min_ttl, rest) = cut(word, b',');
    let (max_mss, rest) = cut(rest, b',');
    let (no_df, log) = cut(rest, b',');
    Action {
        min_ttl: guess_optional_byte(min_ttl),
        max_mss: guess_optional_size(max_mss),
        no_df: guess_bit(no_df),
        log: Name::of(log),
    }
}
