// Translation (RFC 3022, RFC 6296); specs/Translated.antt says which words it writes. The sum of ICMPv6 counts the addresses for every
// message, an echo or not, and that of ICMP none.
ghost use Rattle.std.specs.Prelude.{◌≡◌, ◌<◌, ◌^◌, ◌++◌, length};
ghost use Rattle.npf_key.specs.Translated.{named_port};
ghost use Rattle.npf_rewrite.specs.Room.{HasRoom};
ghost use Rattle.npf_rewrite.specs.Sum.{sum_after};
ghost use Rattle.npf_rewrite.specs.Translated.{FitsWithin, Translated, address_writes, destination_at, destination_write, header_sum, identifier_write, named_writes, new_ends, port_writes, source_at, source_write, sum_writes, upper_sum, upper_sum_after, upper_sum_at};
ghost use Rattle.npf_rewrite.specs.Word.{Rewrites, word_list};

use crate::address::{sum_after_end, write_end};
use crate::sum::{UDP_ZERO, ZERO, sum_after_named};
use crate::word::{WordAt, named_word, write_named};
use npf_fields::get16;
use npf_key::{fitting, named_port};
use npf_types::{Addr, Change, End, Facts, L4};

/// The offsets of the headers' fields, in bytes.
pub(crate) mod field {
    pub const IPV4_CHECKSUM: usize = 10;

    pub const IPV4_SOURCE: usize = 12;

    pub const IPV4_DESTINATION: usize = 16;

    pub const IPV6_SOURCE: usize = 8;

    pub const IPV6_DESTINATION: usize = 24;

    pub const SOURCE_PORT: usize = 0;

    pub const DESTINATION_PORT: usize = 2;

    pub const IDENTIFIER: usize = 4;

    pub const TCP_CHECKSUM: usize = 16;

    pub const UDP_CHECKSUM: usize = 6;

    pub const ICMP_CHECKSUM: usize = 2;
}

/// The ends that a change gives a packet, of its own family.
#[derive(Clone, Copy)]
pub(crate) struct NewEnds {
    pub(crate) src: Option<End>,
    pub(crate) dst: Option<End>,
}

/// Writes what the change names in the packet with these facts, which are those of its bytes: each
/// end's address, its port or the echo's identifier, and, where the change isn't neutral, the sums
/// of the IP header and of what is carried (RFC 1624). An end of another family changes nothing.
pub fn translate(bytes: &mut [u8], facts: &Facts, change: &Change)
    requires { HasRoom (length bytes.old) facts.now }
    ensures { Translated bytes.old facts.now change.now bytes.new }
{
    let ends = new_ends(facts, change);
    if change.neutral {
        write_ends(bytes, facts, &ends);
    } else {
        write_ends_and_sums(bytes, facts, &ends);
    }
}

/// The named ends that are of the packet's family.
fn new_ends(facts: &Facts, change: &Change) -> NewEnds
    ensures { result ≡ new_ends facts.now change.now }
{
    NewEnds {
        src: fitting(facts.src, &change.src),
        dst: fitting(facts.src, &change.dst),
    }
}

/// Writes the ends, and the sums of what they were written over.
fn write_ends_and_sums(bytes: &mut [u8], facts: &Facts, ends: &NewEnds)
    requires { FitsWithin (length bytes.old) facts.now ends.now }
    ensures { Rewrites bytes.old (named_writes facts.now ends.now ++ sum_writes bytes.old facts.now ends.now) bytes.new }
{
    let header = header_sum(bytes, facts, ends);
    let upper = upper_sum(bytes, facts, ends);
    write_ends(bytes, facts, ends);
    write_named(bytes, header);
    write_named(bytes, upper);
}

fn write_ends(bytes: &mut [u8], facts: &Facts, ends: &NewEnds)
    requires { FitsWithin (length bytes.old) facts.now ends.now }
    ensures { Rewrites bytes.old (named_writes facts.now ends.now) bytes.new }
{
    write_end(bytes, source_at(facts), &ends.src);
    write_end(bytes, destination_at(facts), &ends.dst);
    write_named(bytes, source_write(facts, ends));
    write_named(bytes, destination_write(facts, ends));
}

/// Where the source's address stands.
fn source_at(facts: &Facts) -> usize
    ensures value { result ≡ source_at facts.now.ip_at facts.now.src }
    ensures place { result < 2 ^ 33 }
{
    let at = facts.ip_at as usize;
    match facts.src {
        Addr::V4(_) => at + field::IPV4_SOURCE,
        Addr::V6(_) => at + field::IPV6_SOURCE,
    }
}

/// Where the destination's address stands.
fn destination_at(facts: &Facts) -> usize
    ensures value { result ≡ destination_at facts.now.ip_at facts.now.src }
    ensures place { result < 2 ^ 33 }
{
    let at = facts.ip_at as usize;
    match facts.src {
        Addr::V4(_) => at + field::IPV4_DESTINATION,
        Addr::V6(_) => at + field::IPV6_DESTINATION,
    }
}

/// The source's port that is named, or the identifier that stands for both ports.
fn source_write(facts: &Facts, ends: &NewEnds) -> Option<WordAt>
    ensures { result ≡ source_write facts.now.l4_at (named_port ends.now.src) (named_port ends.now.dst) facts.now.l4 }
{
    let at = facts.l4_at as usize;
    match facts.l4 {
        L4::Tcp { .. } | L4::Udp { .. } => named_word(
            at + field::SOURCE_PORT,
            named_port(&ends.src),
        ),
        L4::Icmp { echo, .. } | L4::Icmp6 { echo, .. } => identifier_write(at, ends, echo),
        L4::Other => None,
    }
}

/// The identifier that either side names, in an echo message.
fn identifier_write(at: usize, ends: &NewEnds, echo: Option<u16>) -> Option<WordAt>
    requires { at < 2 ^ 32 }
    ensures { result ≡ identifier_write at (named_port ends.now.src) (named_port ends.now.dst) echo }
{
    match echo {
        Some(_) => named_word(
            at + field::IDENTIFIER,
            named_port(&ends.src).or(named_port(&ends.dst)),
        ),
        None => None,
    }
}

/// The destination's port that is named.
fn destination_write(facts: &Facts, ends: &NewEnds) -> Option<WordAt>
    ensures { result ≡ destination_write facts.now.l4_at (named_port ends.now.src) (named_port ends.now.dst) facts.now.l4 }
{
    let at = facts.l4_at as usize;
    match facts.l4 {
        L4::Tcp { .. } | L4::Udp { .. } => {
            named_word(at + field::DESTINATION_PORT, named_port(&ends.dst))
        }
        _ => None,
    }
}

/// The sum of a header of IPv4 once the addresses are written.
fn header_sum(bytes: &[u8], facts: &Facts, ends: &NewEnds) -> Option<WordAt>
    requires { FitsWithin (length bytes.now) facts.now ends.now }
    ensures { result ≡ header_sum bytes.now facts.now.ip_at facts.now.src (address_writes facts.now ends.now) }
{
    match facts.src {
        Addr::V4(_) => {
            let at = facts.ip_at as usize + field::IPV4_CHECKSUM;
            let value = sum_after_addresses(ZERO, bytes, facts, ends, get16(bytes, at));
            Some(WordAt { at, value })
        }
        Addr::V6(_) => None,
    }
}

/// The sum of what is carried once addresses and ports are written.
fn upper_sum(bytes: &[u8], facts: &Facts, ends: &NewEnds) -> Option<WordAt>
    requires { FitsWithin (length bytes.now) facts.now ends.now }
    ensures { result ≡ upper_sum bytes.now facts.now ends.now }
{
    match upper_sum_at(facts) {
        Some(at) => {
            let value = upper_sum_after(bytes, facts, ends, get16(bytes, at));
            Some(WordAt { at, value })
        }
        None => None,
    }
}

/// Where the sum of what is carried stands.
fn upper_sum_at(facts: &Facts) -> Option<usize>
    ensures { result ≡ upper_sum_at facts.now.l4_at facts.now.l4 }
{
    let at = facts.l4_at as usize;
    match facts.l4 {
        L4::Tcp { .. } => Some(at + field::TCP_CHECKSUM),
        L4::Udp { .. } => Some(at + field::UDP_CHECKSUM),
        L4::Icmp { .. } | L4::Icmp6 { .. } => Some(at + field::ICMP_CHECKSUM),
        L4::Other => None,
    }
}

/// The sum of what is carried, by its protocol.
fn upper_sum_after(bytes: &[u8], facts: &Facts, ends: &NewEnds, sum: u16) -> u16
    requires { FitsWithin (length bytes.now) facts.now ends.now }
    ensures { result ≡ upper_sum_after bytes.now facts.now.src facts.now.l4 (address_writes facts.now ends.now) (port_writes facts.now ends.now) sum }
{
    match (facts.l4, facts.src) {
        (L4::Tcp { .. } | L4::Icmp6 { .. }, _) => sum_after_both(ZERO, bytes, facts, ends, sum),
        (L4::Udp { .. }, Addr::V4(_)) if sum == 0 => 0,
        (L4::Udp { .. }, _) => sum_after_both(UDP_ZERO, bytes, facts, ends, sum),
        (L4::Icmp { .. }, _) => sum_after_ports(ZERO, bytes, facts, ends, sum),
        (L4::Other, _) => sum,
    }
}

/// A sum that counts addresses and ports.
fn sum_after_both(zero: u16, bytes: &[u8], facts: &Facts, ends: &NewEnds, sum: u16) -> u16
    requires { FitsWithin (length bytes.now) facts.now ends.now }
    ensures { result ≡ sum_after zero bytes.now (address_writes facts.now ends.now ++ port_writes facts.now ends.now) sum }
{
    let sum = sum_after_addresses(zero, bytes, facts, ends, sum);
    sum_after_ports(zero, bytes, facts, ends, sum)
}

fn sum_after_addresses(zero: u16, bytes: &[u8], facts: &Facts, ends: &NewEnds, sum: u16) -> u16
    requires { FitsWithin (length bytes.now) facts.now ends.now }
    ensures { result ≡ sum_after zero bytes.now (address_writes facts.now ends.now) sum }
{
    let sum = sum_after_end(zero, bytes, source_at(facts), &ends.src, sum);
    sum_after_end(zero, bytes, destination_at(facts), &ends.dst, sum)
}

fn sum_after_ports(zero: u16, bytes: &[u8], facts: &Facts, ends: &NewEnds, sum: u16) -> u16
    requires { FitsWithin (length bytes.now) facts.now ends.now }
    ensures { result ≡ sum_after zero bytes.now (port_writes facts.now ends.now) sum }
{
    let sum = sum_after_named(zero, bytes, source_write(facts, ends), sum);
    sum_after_named(zero, bytes, destination_write(facts, ends), sum)
}
