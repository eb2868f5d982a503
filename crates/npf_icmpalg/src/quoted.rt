// What an error of ICMP or ICMPv6 quotes: the first bytes of a packet, from its IP header on (RFC
// 792, RFC 4443 section 3). specs/Quoted.antt says which headers are taken.
ghost use Rattle.std.specs.Prelude.{◌≡◌, ◌+◌, ◌<◌, ◌≤◌, ◌^◌, length, IsTrue};
ghost use Rattle.npf_icmpalg.specs.Quoted.{HasQuotedHeader, is_tcp_or_udp, is_header_v4, is_header_v6, is_same_address, is_quoted_header, is_quoted_upper, port_or_identifier, quoted_at, quoted_echo, quoted_in, quoted_v4, quoted_v6, sum_offset, whole_sum_at};
ghost use Rattle.npf_packet.specs.Icmp.{echo_in_icmp};
ghost use Rattle.npf_packet.specs.Icmpv6.{echo_in_icmpv6};
ghost use Rattle.npf_packet.specs.Ipv4.{header_len};
ghost use Rattle.npf_rewrite.specs.Room.{HasRoom};

use npf_fields::{get16, get32, get128};
use npf_types::{Addr, Facts};

/// The offsets of the headers' fields, in bytes.
mod field {
    pub const IPV4_FRAGMENT: usize = 6;

    pub const IPV4_PROTOCOL: usize = 9;

    pub const IPV4_SOURCE: usize = 12;

    pub const IPV4_DESTINATION: usize = 16;

    pub const IPV6_NEXT_HEADER: usize = 6;

    pub const IPV6_SOURCE: usize = 8;

    pub const IPV6_DESTINATION: usize = 24;

    pub const TCP_CHECKSUM: usize = 16;

    pub const UDP_CHECKSUM: usize = 6;

    pub const ICMP_CHECKSUM: usize = 2;

    pub const ICMP_IDENTIFIER: usize = 4;
}

/// The header of ICMP and of ICMPv6, in bytes.
const ICMP_HEADER: usize = 8;

/// What is looked at behind a quoted header, in bytes: an error quotes no less (RFC 792).
const QUOTED_BYTES: usize = 8;

const IPV4_HEADER: usize = 20;

const IPV6_HEADER: usize = 40;

/// The offset in IPv4's fragment field, its lower 13 bits.
const FRAGMENT_OFFSET: u16 = 0x1fff;

/// The numbers of the protocols (assigned Internet protocol numbers).
mod protocol {
    pub const ICMP: u8 = 1;

    pub const TCP: u8 = 6;

    pub const UDP: u8 = 17;

    pub const ICMPV6: u8 = 58;
}

/// A quoted IP header: its addresses and protocol, and where what it carries begins.
#[derive(Clone, Copy)]
pub(crate) struct Quoted {
    pub(crate) src: Addr,
    pub(crate) dst: Addr,
    pub(crate) proto: u8,
    pub(crate) l4_at: usize,
}

/// Where the quoted header begins.
pub(crate) fn quoted_at(facts: &Facts) -> usize
    ensures value { result ≡ quoted_at facts.now }
    ensures place { result < 2 ^ 33 }
{
    facts.l4_at as usize + ICMP_HEADER
}

/// Whether a header of the packet's own version is quoted, and enough behind it.
pub(crate) fn is_quoted_header(bytes: &[u8], facts: &Facts) -> bool
    requires { HasRoom (length bytes.now) facts.now }
    ensures value { result ≡ is_quoted_header bytes.now (quoted_at facts.now) facts.now.src facts.now.end }
    ensures placed { IsTrue result → HasQuotedHeader bytes.now facts.now }
{
    let at = quoted_at(facts);
    match facts.src {
        Addr::V4(_) => is_header_v4(bytes, at, facts.end as usize),
        Addr::V6(_) => is_header_v6(bytes, at, facts.end as usize),
    }
}

fn is_header_v4(bytes: &[u8], at: usize, end: usize) -> bool
    requires size { end ≤ length bytes.now }
    requires place { at < 2 ^ 33 }
    ensures value { result ≡ is_header_v4 bytes.now at end }
    ensures least { IsTrue result → at + 20 ≤ at + header_len bytes.now at }
    ensures upper { IsTrue result → at + header_len bytes.now at + 8 ≤ end }
{
    if end < at + IPV4_HEADER + QUOTED_BYTES {
        return false;
    }
    let header = header_len(bytes, at);
    bytes[at] >> 4 == 4
        && header >= IPV4_HEADER
        && get16(bytes, at + field::IPV4_FRAGMENT) & FRAGMENT_OFFSET == 0
        && at + header + QUOTED_BYTES <= end
}

fn is_header_v6(bytes: &[u8], at: usize, end: usize) -> bool
    requires size { end ≤ length bytes.now }
    requires place { at < 2 ^ 33 }
    ensures value { result ≡ is_header_v6 bytes.now at end }
    ensures upper { IsTrue result → at + 40 + 8 ≤ end }
{
    at + IPV6_HEADER + QUOTED_BYTES <= end && bytes[at] >> 4 == 6
}

/// The length in bytes of a header of IPv4, whose field counts words of four.
fn header_len(bytes: &[u8], at: usize) -> usize
    requires { at + 1 ≤ length bytes.now }
    ensures { result ≡ header_len bytes.now at }
{
    4 * usize::from(bytes[at] & 15)
}

/// The quoted header, which is of the packet's own version.
pub(crate) fn quoted_in(bytes: &[u8], facts: &Facts) -> Quoted
    requires room { HasRoom (length bytes.now) facts.now }
    requires placed { HasQuotedHeader bytes.now facts.now }
    ensures { result ≡ quoted_in bytes.now (quoted_at facts.now) facts.now.src }
{
    let at = quoted_at(facts);
    match facts.src {
        Addr::V4(_) => quoted_v4(bytes, at),
        Addr::V6(_) => quoted_v6(bytes, at),
    }
}

fn quoted_v4(bytes: &[u8], at: usize) -> Quoted
    requires size { at + 20 ≤ length bytes.now }
    requires place { at < 2 ^ 33 }
    ensures { result ≡ quoted_v4 bytes.now at }
{
    Quoted {
        src: Addr::V4(get32(bytes, at + field::IPV4_SOURCE)),
        dst: Addr::V4(get32(bytes, at + field::IPV4_DESTINATION)),
        proto: bytes[at + field::IPV4_PROTOCOL],
        l4_at: at + header_len(bytes, at),
    }
}

fn quoted_v6(bytes: &[u8], at: usize) -> Quoted
    requires size { at + 40 ≤ length bytes.now }
    requires place { at < 2 ^ 33 }
    ensures { result ≡ quoted_v6 bytes.now at }
{
    Quoted {
        src: Addr::V6(get128(bytes, at + field::IPV6_SOURCE)),
        dst: Addr::V6(get128(bytes, at + field::IPV6_DESTINATION)),
        proto: bytes[at + field::IPV6_NEXT_HEADER],
        l4_at: at + IPV6_HEADER,
    }
}

/// Whether the protocol is TCP or UDP.
pub(crate) fn is_tcp_or_udp(proto: u8) -> bool
    ensures { result ≡ is_tcp_or_udp proto }
{
    proto == protocol::TCP || proto == protocol::UDP
}

/// Whether a packet of TCP or UDP or an echo is quoted.
pub(crate) fn is_quoted_upper(bytes: &[u8], quoted: &Quoted, src: Addr) -> bool
    requires size { quoted.now.l4_at + 8 ≤ length bytes.now }
    requires place { quoted.now.l4_at < 2 ^ 33 }
    ensures { result ≡ is_quoted_upper bytes.now quoted.now src }
{
    is_tcp_or_udp(quoted.proto) || quoted_echo(bytes, quoted, src).is_some()
}

/// The identifier of a quoted echo message.
pub(crate) fn quoted_echo(bytes: &[u8], quoted: &Quoted, src: Addr) -> Option<u16>
    requires size { quoted.now.l4_at + 8 ≤ length bytes.now }
    requires place { quoted.now.l4_at < 2 ^ 33 }
    ensures { result ≡ quoted_echo bytes.now quoted.now src }
{
    match src {
        Addr::V4(_) if quoted.proto == protocol::ICMP => echo_in_icmp(bytes, quoted.l4_at),
        Addr::V6(_) if quoted.proto == protocol::ICMPV6 => echo_in_icmpv6(bytes, quoted.l4_at),
        _ => None,
    }
}

/// An echo has the type 8 and its reply the type 0 (RFC 792).
fn echo_in_icmp(bytes: &[u8], at: usize) -> Option<u16>
    requires size { at + 8 ≤ length bytes.now }
    requires place { at < 2 ^ 33 }
    ensures { result ≡ echo_in_icmp bytes.now at }
{
    match bytes[at] {
        8 | 0 => Some(get16(bytes, at + field::ICMP_IDENTIFIER)),
        _ => None,
    }
}

/// An echo request has the type 128 and its reply the type 129 (RFC 4443 section 4).
fn echo_in_icmpv6(bytes: &[u8], at: usize) -> Option<u16>
    requires size { at + 8 ≤ length bytes.now }
    requires place { at < 2 ^ 33 }
    ensures { result ≡ echo_in_icmpv6 bytes.now at }
{
    match bytes[at] {
        128 | 129 => Some(get16(bytes, at + field::ICMP_IDENTIFIER)),
        _ => None,
    }
}

/// The port at a place, or the echo's identifier.
pub(crate) fn port_or_identifier(bytes: &[u8], echo: Option<u16>, at: usize) -> u16
    requires { at + 2 ≤ length bytes.now }
    ensures { result ≡ port_or_identifier bytes.now echo at }
{
    match echo {
        Some(identifier) => identifier,
        None => get16(bytes, at),
    }
}

/// Where in its header the sum of what is carried stands, by its protocol.
pub(crate) fn sum_offset(proto: u8) -> usize
    ensures value { result ≡ sum_offset proto }
    ensures least { result ≤ 16 }
{
    match proto {
        protocol::TCP => field::TCP_CHECKSUM,
        protocol::UDP => field::UDP_CHECKSUM,
        _ => field::ICMP_CHECKSUM,
    }
}

/// The place of a quoted sum, where both of its bytes lie before the end.
pub(crate) fn whole_sum_at(at: usize, end: u32) -> Option<u32>
    requires { at < 2 ^ 34 }
    ensures { result ≡ whole_sum_at at end }
{
    if at + 2 <= end as usize {
        Some(at as u32)
    } else {
        None
    }
}

/// Whether two addresses are one.
pub(crate) fn is_same_address(a: Addr, b: Addr) -> bool
    ensures { result ≡ is_same_address a b }
{
    match (a, b) {
        (Addr::V4(a), Addr::V4(b)) => a == b,
        (Addr::V6(a), Addr::V6(b)) => a == b,
        _ => false,
    }
}
