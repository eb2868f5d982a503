// Errors of ICMP and ICMPv6 that quote a packet (RFC 792, RFC 4443 section 3); specs/Error.antt
// says which packets are such errors.
ghost use Rattle.std.specs.Prelude.{◌≡◌, length, IfSome};
ghost use Rattle.npf_icmpalg.specs.Error.{HasQuotedRoom, error_in, inner_key, is_error_kind, quoted_header, quoted_packet};
ghost use Rattle.npf_icmpalg.specs.Quoted.{HasQuotedHeader};
ghost use Rattle.npf_rewrite.specs.Room.{HasRoom};

use crate::quoted::{
    Quoted, is_quoted_header, is_quoted_upper, is_same_address, port_or_identifier, quoted_at,
    quoted_echo, quoted_in, sum_offset, whole_sum_at,
};
use npf_key::key_between;
use npf_types::{Addr, Facts, IfId, Key, L4};

/// The packet that an error quotes: its addresses, protocol and ports, an echo's identifier for
/// both ports, and the places of its IP header, of what it carries and of the sum of that, where
/// both bytes of the sum are quoted. Places are in bytes from the record's first.
#[derive(Clone, Copy, Debug, PartialEq, Eq)]
pub struct Inner {
    pub src: Addr,
    pub dst: Addr,
    pub proto: u8,
    pub sport: u16,
    pub dport: u16,
    pub ip_at: u32,
    pub l4_at: u32,
    pub sum_at: Option<u32>,
}

/// What the packet with these facts, which are those of its bytes, quotes; None exactly where it is
/// no error of ICMP (destination unreachable, time exceeded, parameter problem) or ICMPv6 (types 1
/// to 4) that quotes a packet of TCP or UDP or an echo from where the error goes.
pub fn inner_of(bytes: &[u8], facts: &Facts) -> Option<Inner>
    requires { HasRoom (length bytes.now) facts.now }
    ensures quoted { result ≡ quoted_packet bytes.now facts.now }
    ensures placed { IfSome result (HasQuotedRoom facts.now) }
{
    if !is_error_kind(facts.l4) || !is_quoted_header(bytes, facts) {
        return None;
    }
    let quoted = quoted_in(bytes, facts);
    if is_quoted_upper(bytes, &quoted, facts.src) && is_same_address(quoted.src, facts.dst) {
        Some(error_in(bytes, facts, &quoted))
    } else {
        None
    }
}

/// Whether the type of the message is that of an error.
fn is_error_kind(l4: L4) -> bool
    ensures { result ≡ is_error_kind l4 }
{
    match l4 {
        L4::Icmp { kind, .. } => kind == 3 || kind == 11 || kind == 12,
        L4::Icmp6 { kind, .. } => 1 <= kind && kind <= 4,
        _ => false,
    }
}

/// What an error quotes whose quoted header is this.
fn error_in(bytes: &[u8], facts: &Facts, quoted: &Quoted) -> Inner
    requires room { HasRoom (length bytes.now) facts.now }
    requires placed { HasQuotedHeader bytes.now facts.now }
    requires header { quoted.now ≡ quoted_header bytes.now facts.now }
    ensures value { result ≡ error_in bytes.now facts.now }
    ensures placed { HasQuotedRoom facts.now result }
{
    let echo = quoted_echo(bytes, quoted, facts.src);
    let sum_at = quoted.l4_at + sum_offset(quoted.proto);
    Inner {
        src: quoted.src,
        dst: quoted.dst,
        proto: quoted.proto,
        sport: port_or_identifier(bytes, echo, quoted.l4_at),
        dport: port_or_identifier(bytes, echo, quoted.l4_at + 2),
        ip_at: quoted_at(facts) as u32,
        l4_at: quoted.l4_at as u32,
        sum_at: whole_sum_at(sum_at, facts.end),
    }
}

/// The key on this interface of what answers the quoted packet: its protocol, with source and
/// destination changed about.
pub fn inner_key(inner: &Inner, ifid: IfId) -> Key
    ensures { result ≡ inner_key inner.now ifid }
{
    key_between(
        inner.proto,
        inner.dst,
        inner.dport,
        inner.src,
        inner.sport,
        ifid,
    )
}
