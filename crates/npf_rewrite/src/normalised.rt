// Normalisation (npf.conf(5), "Procedures"); specs/Normalised.antt says which words it writes. A maximum segment size at an odd place lies
// across two words. All that is asked is about places, so what was normalised may be translated by the same facts.
ghost use Rattle.std.specs.Prelude.{◌≡◌, ◌+◌, ◌-◌, ◌/◌, ◌%◌, ◌<◌, ◌≤◌, ◌==◌, ◌^◌, ◌++◌, ℕ, length, slice_index, IfSome, IsTrue};
ghost use Rattle.npf_rewrite.specs.Normalised.{Normalised, aligned, cleared_fragment, header_writes, joined, lowered_mss, lowered_to, mss_write, raised_ttl, segment_sum};
ghost use Rattle.npf_rewrite.specs.Room.{HasRoom, IsMssWrite};
ghost use Rattle.npf_rewrite.specs.Sum.{sum_after};
ghost use Rattle.npf_rewrite.specs.Translated.{header_sum};
ghost use Rattle.npf_rewrite.specs.Word.{AllWithin, word_list};

use crate::sum::{ZERO, sum_after_named, sum_after_word};
use crate::word::{WordAt, write_named};
use npf_fields::get16;
use npf_types::{Action, Addr, Facts, L4};

/// The offsets of the headers' fields, in bytes.
mod field {
    pub const IPV4_FRAGMENT: usize = 6;

    pub const IPV4_TTL: usize = 8;

    pub const IPV4_PROTOCOL: usize = 9;

    pub const IPV4_CHECKSUM: usize = 10;

    pub const IPV6_NEXT_HEADER: usize = 6;

    pub const IPV6_HOP_LIMIT: usize = 7;

    pub const TCP_CHECKSUM: usize = 16;
}

/// The bit "don't fragment" of IPv4's fragment field.
const DONT_FRAGMENT: u16 = 0x4000;

/// Does what the action says to the packet with these facts, which are those of its bytes: a time
/// to live or hop limit below `min_ttl` is raised to it, `no_df` clears the bit "don't fragment" of
/// IPv4, and a maximum segment size above `max_mss` is lowered to it in a segment with the flag S.
/// The sums follow (RFC 1624).
pub fn normalize(bytes: &mut [u8], facts: &Facts, action: &Action)
    requires { HasRoom (length bytes.old) facts.now }
    ensures { Normalised bytes.old facts.now action.now bytes.new }
{
    let ttl = raised_ttl(bytes, facts, action.min_ttl);
    let fragment = cleared_fragment(bytes, facts, action.no_df);
    let mss = lowered_mss(bytes, facts, action.max_mss);
    let header = header_sum(bytes, facts, ttl, fragment);
    let segment = segment_sum(bytes, facts, mss);
    write_named(bytes, ttl);
    write_named(bytes, fragment);
    write_named(bytes, mss);
    write_named(bytes, header);
    write_named(bytes, segment);
}

/// The word with the time to live or the hop limit, where that is below the least.
fn raised_ttl(bytes: &[u8], facts: &Facts, min_ttl: Option<u8>) -> Option<WordAt>
    requires { HasRoom (length bytes.now) facts.now }
    ensures { result ≡ raised_ttl bytes.now facts.now.ip_at facts.now.src min_ttl }
{
    let Some(least) = min_ttl else {
        return None;
    };
    match facts.src {
        Addr::V4(_) => raised_v4(bytes, facts.ip_at as usize, least),
        Addr::V6(_) => raised_v6(bytes, facts.ip_at as usize, least),
    }
}

fn raised_v4(bytes: &[u8], ip_at: usize, least: u8) -> Option<WordAt>
    requires header { ip_at + 20 ≤ length bytes.now }
    requires place { ip_at < 2 ^ 32 }
    ensures { (a : ℕ) → result ≡ raised_ttl bytes.now ip_at (Addr.V4 a) (Some least) }
{
    let at = ip_at + field::IPV4_TTL;
    if bytes[at] < least {
        let value = joined(least, bytes[ip_at + field::IPV4_PROTOCOL]);
        Some(WordAt { at, value })
    } else {
        None
    }
}

fn raised_v6(bytes: &[u8], ip_at: usize, least: u8) -> Option<WordAt>
    requires header { ip_at + 40 ≤ length bytes.now }
    requires place { ip_at < 2 ^ 32 }
    ensures { (a : ℕ) → result ≡ raised_ttl bytes.now ip_at (Addr.V6 a) (Some least) }
{
    let at = ip_at + field::IPV6_NEXT_HEADER;
    if bytes[ip_at + field::IPV6_HOP_LIMIT] < least {
        let value = joined(bytes[at], least);
        Some(WordAt { at, value })
    } else {
        None
    }
}

/// The fragment field without "don't fragment", where the bit is set.
fn cleared_fragment(bytes: &[u8], facts: &Facts, no_df: bool) -> Option<WordAt>
    requires { HasRoom (length bytes.now) facts.now }
    ensures { result ≡ cleared_fragment bytes.now facts.now.ip_at facts.now.src no_df }
{
    match (facts.src, no_df) {
        (Addr::V4(_), true) => {
            let at = facts.ip_at as usize + field::IPV4_FRAGMENT;
            let value = get16(bytes, at);
            if is_set(value) {
                Some(WordAt {
                    at,
                    value: value - DONT_FRAGMENT,
                })
            } else {
                None
            }
        }
        _ => None,
    }
}

/// Whether "don't fragment" is set.
fn is_set(field: u16) -> bool
    ensures value { result ≡ (field / 0x4000 % 2 == 1) }
    ensures least { IsTrue result → 0x4000 ≤ field }
{
    field >> 14 & 1 == 1
}

/// The maximum segment size of a segment with the flag S, where it is above the most.
fn lowered_mss(bytes: &[u8], facts: &Facts, max_mss: Option<u16>) -> Option<WordAt>
    requires { HasRoom (length bytes.now) facts.now }
    ensures value { result ≡ lowered_mss bytes.now facts.now.l4 max_mss }
    ensures option { IfSome result (IsMssWrite (length bytes.now) facts.now) }
{
    match (facts.l4, max_mss) {
        (
            L4::Tcp {
                seg,
                mss_at: Some(at),
                ..
            },
            Some(most),
        ) if has_syn(seg.flags) => {
            let at = at as usize;
            if most < get16(bytes, at) {
                Some(WordAt { at, value: most })
            } else {
                None
            }
        }
        _ => None,
    }
}

/// Whether the flag S is set.
fn has_syn(flags: u8) -> bool
    ensures { result ≡ (flags / 2 % 2 == 1) }
{
    flags >> 1 & 1 == 1
}

/// The sum of a header of IPv4 once these of its words are written.
fn header_sum(
    bytes: &[u8],
    facts: &Facts,
    ttl: Option<WordAt>,
    fragment: Option<WordAt>,
) -> Option<WordAt>
    requires room { HasRoom (length bytes.now) facts.now }
    requires ttl { AllWithin (length bytes.now) (word_list ttl) }
    requires fragment { AllWithin (length bytes.now) (word_list fragment) }
    ensures { result ≡ header_sum bytes.now facts.now.ip_at facts.now.src (word_list ttl ++ word_list fragment) }
{
    match facts.src {
        Addr::V4(_) => {
            let at = facts.ip_at as usize + field::IPV4_CHECKSUM;
            let sum = sum_after_named(ZERO, bytes, ttl, get16(bytes, at));
            let value = sum_after_named(ZERO, bytes, fragment, sum);
            Some(WordAt { at, value })
        }
        Addr::V6(_) => None,
    }
}

/// The sum of a segment once its maximum segment size is written.
fn segment_sum(bytes: &[u8], facts: &Facts, mss: Option<WordAt>) -> Option<WordAt>
    requires { IfSome mss (IsMssWrite (length bytes.now) facts.now) }
    ensures { result ≡ segment_sum bytes.now facts.now.l4_at mss }
{
    match mss {
        Some(word) => {
            let at = facts.l4_at as usize + field::TCP_CHECKSUM;
            let value = sum_after_option(bytes, facts.l4_at as usize, word, get16(bytes, at));
            Some(WordAt { at, value })
        }
        None => None,
    }
}

/// The sum of what begins at `header_at` once an option's number is written.
fn sum_after_option(bytes: &[u8], header_at: usize, word: WordAt, sum: u16) -> u16
    requires after { header_at + 20 ≤ word.at }
    requires before { word.at + 2 ≤ length bytes.now }
    requires place { word.at < 2 ^ 32 }
    ensures { result ≡ sum_after 0 bytes.now (aligned bytes.now header_at word) sum }
{
    if (word.at - header_at) % 2 == 0 {
        return sum_after_word(ZERO, sum, get16(bytes, word.at), word.value);
    }
    let before = bytes[word.at - 1];
    let behind = byte_behind(bytes, word.at + 2);
    let upper = joined(before, (word.value >> 8) as u8);
    let lower = joined((word.value & 0xff) as u8, behind);
    let sum = sum_after_word(ZERO, sum, joined(before, bytes[word.at]), upper);
    sum_after_word(ZERO, sum, joined(bytes[word.at + 1], behind), lower)
}

/// The byte at a place; behind the last, 0 fills a sum's last word (RFC 1071 section 4.1).
fn byte_behind(bytes: &[u8], at: usize) -> u8
    ensures { result ≡ slice_index bytes.now at }
{
    if at < bytes.len() { bytes[at] } else { 0 }
}

/// Two bytes as a word.
fn joined(upper: u8, lower: u8) -> u16
    ensures { result ≡ joined upper lower }
{
    256 * u16::from(upper) + u16::from(lower)
}
