// Translation of an error and of what it quotes (RFC 5508 section 4, RFC 3022 section 4.3);
// specs/ErrorTranslated.antt says which words it writes.
ghost use Rattle.std.specs.Prelude.{◌≡◌, ℕ, ◌+◌, ◌<◌, ◌≤◌, ◌^◌, ◌++◌, length, IfSome};
ghost use Rattle.npf_icmpalg.specs.Error.{HasQuotedRoom};
ghost use Rattle.npf_icmpalg.specs.ErrorTranslated.{ErrorTranslated, counted_outer, error_sums, error_writes, outer_ends, outer_source, quoted_destination_write, quoted_ends, quoted_ports, quoted_source_write, quoted_sum, quoted_sum_after};
ghost use Rattle.npf_icmpalg.specs.Header.{HeaderWithin, header_addresses};
ghost use Rattle.npf_icmpalg.specs.Within.{AreQuotedSums, ErrorWithin, QuotedWithin, SumsWithin, port_words, told_error_sum};
ghost use Rattle.npf_packet.specs.Place.{least_ip_header};
ghost use Rattle.npf_rewrite.specs.Room.{HasRoom};
ghost use Rattle.npf_rewrite.specs.Sum.{sum_after};
ghost use Rattle.npf_rewrite.specs.Word.{AllWithin, Rewrites, word_list};

use crate::error::Inner;
use crate::header::{HeaderEnds, header_sum, sum_after_addresses, write_addresses};
use crate::quoted::{is_same_address, is_tcp_or_udp};
use npf_fields::get16;
use npf_key::{fitting, named_port};
use npf_rewrite::{UDP_ZERO, WordAt, ZERO, named_word, sum_after_named, write_named, write_word};
use npf_types::{Addr, Change, End, Facts};

/// The offsets of the headers' fields, in bytes.
mod field {
    pub const DESTINATION_PORT: usize = 2;

    pub const ICMP_IDENTIFIER: usize = 4;

    pub const ICMP_CHECKSUM: usize = 2;
}

/// The numbers of the protocols with ports (assigned Internet protocol numbers).
mod protocol {
    pub const TCP: u8 = 6;

    pub const UDP: u8 = 17;
}

/// What is written in the quoted packet: the addresses of its header, and its ports or identifier.
#[derive(Clone, Copy)]
pub(crate) struct QuotedEnds {
    pub(crate) header: HeaderEnds,
    pub(crate) source: Option<WordAt>,
    pub(crate) destination: Option<WordAt>,
}

/// Writes what the change names in the error with these facts, which quotes `inner`: the outer
/// destination and the quoted source become the change's destination, the quoted destination its
/// source, and so does the outer source where it was the quoted destination. Where the change isn't
/// neutral, the sums of both headers, of the error and of what is quoted follow (RFC 1624). An end
/// of another family changes nothing.
pub fn translate_error(bytes: &mut [u8], facts: &Facts, inner: &Inner, change: &Change)
    requires room { HasRoom (length bytes.old) facts.now }
    requires quoted { HasQuotedRoom facts.now inner.now }
    ensures { ErrorTranslated bytes.old facts.now inner.now change.now bytes.new }
{
    let outer = outer_ends(facts, inner, change);
    let quoted = quoted_writes(facts, inner, change);
    if change.neutral {
        write_ends(bytes, &outer, &quoted);
    } else {
        write_ends_and_sums(bytes, facts.l4_at as usize, inner, &outer, &quoted);
    }
}

/// The ends that the outer header gets.
fn outer_ends(facts: &Facts, inner: &Inner, change: &Change) -> HeaderEnds
    ensures value { result ≡ outer_ends facts.now inner.now change.now }
    ensures within { (size : ℕ) → HasRoom size facts.now → HeaderWithin size result }
{
    HeaderEnds {
        family: facts.src,
        ip_at: facts.ip_at,
        src: outer_source(facts, inner, change),
        dst: fitting(facts.src, &change.dst),
    }
}

/// The outer source, where the error comes from the host to which the quoted packet went.
fn outer_source(facts: &Facts, inner: &Inner, change: &Change) -> Option<End>
    ensures { result ≡ outer_source facts.now inner.now change.now }
{
    if is_same_address(facts.src, inner.dst) {
        fitting(facts.src, &change.src)
    } else {
        None
    }
}

/// What is written in the quoted packet.
fn quoted_writes(facts: &Facts, inner: &Inner, change: &Change) -> QuotedEnds
    ensures header { result.header ≡ quoted_ends facts.now inner.now change.now }
    ensures source { result.source ≡ quoted_source_write inner.now (quoted_ends facts.now inner.now change.now) }
    ensures destination { result.destination ≡ quoted_destination_write inner.now (quoted_ends facts.now inner.now change.now) }
    ensures ports { port_words result ≡ quoted_ports inner.now (quoted_ends facts.now inner.now change.now) }
    ensures within { (size : ℕ) → HasQuotedRoom facts.now inner.now → facts.now.end ≤ size → QuotedWithin size result }
{
    let header = quoted_ends(facts, inner, change);
    QuotedEnds {
        header,
        source: source_write(inner, &header),
        destination: destination_write(inner, &header),
    }
}

/// The ends that the quoted header gets.
fn quoted_ends(facts: &Facts, inner: &Inner, change: &Change) -> HeaderEnds
    ensures value { result ≡ quoted_ends facts.now inner.now change.now }
    ensures within { (size : ℕ) → inner.now.ip_at + least_ip_header facts.now.src ≤ size → HeaderWithin size result }
{
    HeaderEnds {
        family: facts.src,
        ip_at: inner.ip_at,
        src: fitting(facts.src, &change.dst),
        dst: fitting(facts.src, &change.src),
    }
}

/// The quoted source port that is named, or the identifier that stands for both ports.
fn source_write(inner: &Inner, header: &HeaderEnds) -> Option<WordAt>
    ensures { result ≡ quoted_source_write inner.now header.now }
{
    let at = inner.l4_at as usize;
    let source = named_port(&header.src);
    if is_tcp_or_udp(inner.proto) {
        named_word(at, source)
    } else {
        named_word(
            at + field::ICMP_IDENTIFIER,
            named_port(&header.dst).or(source),
        )
    }
}

/// The quoted destination port that is named.
fn destination_write(inner: &Inner, header: &HeaderEnds) -> Option<WordAt>
    ensures { result ≡ quoted_destination_write inner.now header.now }
{
    if is_tcp_or_udp(inner.proto) {
        let at = inner.l4_at as usize + field::DESTINATION_PORT;
        named_word(at, named_port(&header.dst))
    } else {
        None
    }
}

/// Writes the ends, and the sums of what they were written over.
fn write_ends_and_sums(
    bytes: &mut [u8],
    l4_at: usize,
    inner: &Inner,
    outer: &HeaderEnds,
    quoted: &QuotedEnds,
)
    requires within { ErrorWithin (length bytes.old) l4_at inner.now outer.now quoted.now }
    requires place { l4_at < 2 ^ 32 }
    ensures { Rewrites bytes.old (error_writes outer.now quoted.now.header (port_words quoted.now) ++ error_sums bytes.old quoted.now.header (port_words quoted.now) l4_at inner.now outer.now) bytes.new }
{
    let sums = quoted_sums(bytes, inner, quoted);
    let outer_header = header_sum(bytes, outer);
    let error = error_sum(bytes, l4_at, outer, quoted, &sums);
    write_ends(bytes, outer, quoted);
    write_named(bytes, sums.header);
    write_named(bytes, sums.upper);
    write_named(bytes, outer_header);
    write_word(bytes, error);
}

fn write_ends(bytes: &mut [u8], outer: &HeaderEnds, quoted: &QuotedEnds)
    requires outer { HeaderWithin (length bytes.old) outer.now }
    requires quoted { QuotedWithin (length bytes.old) quoted.now }
    ensures { Rewrites bytes.old (error_writes outer.now quoted.now.header (port_words quoted.now)) bytes.new }
{
    write_addresses(bytes, outer);
    write_addresses(bytes, &quoted.header);
    write_named(bytes, quoted.source);
    write_named(bytes, quoted.destination);
}

/// The sums of what is quoted: that of its header, and that of what it carries.
#[derive(Clone, Copy)]
pub(crate) struct QuotedSums {
    pub(crate) header: Option<WordAt>,
    pub(crate) upper: Option<WordAt>,
}

fn quoted_sums(bytes: &[u8], inner: &Inner, quoted: &QuotedEnds) -> QuotedSums
    requires within { QuotedWithin (length bytes.now) quoted.now }
    requires sum { IfSome inner.now.sum_at (λ at. at + 2 ≤ length bytes.now) }
    ensures { AreQuotedSums bytes.now inner.now quoted.now result }
{
    QuotedSums {
        header: header_sum(bytes, &quoted.header),
        upper: quoted_sum(bytes, inner, quoted),
    }
}

/// The quoted sum of what is carried, where it is quoted whole.
fn quoted_sum(bytes: &[u8], inner: &Inner, quoted: &QuotedEnds) -> Option<WordAt>
    requires within { QuotedWithin (length bytes.now) quoted.now }
    requires sum { IfSome inner.now.sum_at (λ at. at + 2 ≤ length bytes.now) }
    ensures value { result ≡ quoted_sum bytes.now quoted.now.header (port_words quoted.now) inner.now.proto inner.now.sum_at }
    ensures within { AllWithin (length bytes.now) (word_list result) }
{
    match inner.sum_at {
        Some(at) => {
            let at = at as usize;
            let value = quoted_sum_after(bytes, inner.proto, quoted, get16(bytes, at));
            Some(WordAt { at, value })
        }
        None => None,
    }
}

/// That sum once addresses and ports are written, by its protocol.
fn quoted_sum_after(bytes: &[u8], proto: u8, quoted: &QuotedEnds, sum: u16) -> u16
    requires { QuotedWithin (length bytes.now) quoted.now }
    ensures { result ≡ quoted_sum_after bytes.now quoted.now.header (port_words quoted.now) quoted.now.header.family proto sum }
{
    match (quoted.header.family, proto) {
        (_, protocol::TCP) => sum_after_quoted(ZERO, bytes, quoted, sum),
        (Addr::V4(_), protocol::UDP) if sum == 0 => 0,
        (_, protocol::UDP) => sum_after_quoted(UDP_ZERO, bytes, quoted, sum),
        (Addr::V4(_), _) => sum_after_ports(ZERO, bytes, quoted, sum),
        (Addr::V6(_), _) => sum_after_quoted(ZERO, bytes, quoted, sum),
    }
}

/// A sum that counts addresses and ports of what is quoted.
fn sum_after_quoted(zero: u16, bytes: &[u8], quoted: &QuotedEnds, sum: u16) -> u16
    requires { QuotedWithin (length bytes.now) quoted.now }
    ensures { result ≡ sum_after zero bytes.now (header_addresses quoted.now.header ++ port_words quoted.now) sum }
{
    let sum = sum_after_addresses(zero, bytes, &quoted.header, sum);
    sum_after_ports(zero, bytes, quoted, sum)
}

fn sum_after_ports(zero: u16, bytes: &[u8], quoted: &QuotedEnds, sum: u16) -> u16
    requires { QuotedWithin (length bytes.now) quoted.now }
    ensures { result ≡ sum_after zero bytes.now (port_words quoted.now) sum }
{
    let sum = sum_after_named(zero, bytes, quoted.source, sum);
    sum_after_named(zero, bytes, quoted.destination, sum)
}

/// The sum of the error itself, which counts all that is written behind it, and in ICMPv6 the outer
/// addresses besides.
fn error_sum(
    bytes: &[u8],
    l4_at: usize,
    outer: &HeaderEnds,
    quoted: &QuotedEnds,
    sums: &QuotedSums,
) -> WordAt
    requires outer { HeaderWithin (length bytes.now) outer.now }
    requires quoted { QuotedWithin (length bytes.now) quoted.now }
    requires sums { SumsWithin (length bytes.now) sums.now }
    requires header { l4_at + 8 ≤ length bytes.now }
    requires place { l4_at < 2 ^ 32 }
    ensures value { result ≡ told_error_sum bytes.now l4_at outer.now quoted.now sums.now }
    ensures within { result.at + 2 ≤ length bytes.now }
{
    let at = l4_at + field::ICMP_CHECKSUM;
    let sum = sum_after_outer(bytes, outer, get16(bytes, at));
    let sum = sum_after_quoted(ZERO, bytes, quoted, sum);
    let sum = sum_after_named(ZERO, bytes, sums.header, sum);
    let value = sum_after_named(ZERO, bytes, sums.upper, sum);
    WordAt { at, value }
}

/// The error's sum once the outer addresses are written.
fn sum_after_outer(bytes: &[u8], outer: &HeaderEnds, sum: u16) -> u16
    requires { HeaderWithin (length bytes.now) outer.now }
    ensures { result ≡ sum_after 0 bytes.now (counted_outer outer.now.family outer.now) sum }
{
    match outer.family {
        Addr::V4(_) => sum,
        Addr::V6(_) => sum_after_addresses(ZERO, bytes, outer, sum),
    }
}
