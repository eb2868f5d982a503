// IPv6 and its extension headers (RFC 8200 sections 3 and 4); specs/Ipv6.antt has the picture of the header.
//
// Extension headers stand in any number and order. They are stated as the options of TCP are, by what follows one element (specs/Chain),
// and not by how they are walked.
ghost use Rattle.std.specs.Prelude.{◌≡◌, ◌+◌, ◌<◌, ◌≤◌, ◌==◌, ◌&&◌, nat_le, length, IfOk, IfSome};
ghost use Rattle.npf_packet.specs.Ipv6.{IsPacketV6, HasLast, end_v6, is_extension, extension_len, next_header, payload_len, fragment_answer};
ghost use Rattle.npf_packet.specs.Packet.{IsPlaced};

use crate::decoded::Decoded;
use crate::packet::IpPacket;
use npf_fields::{get16, get128};
use npf_types::Addr;
use npf_types::limits::MAX_PACKET_BYTES;

/// The offsets of the header's fields, in bytes.
mod field {
    pub const PAYLOAD_LEN: usize = 4;

    pub const NEXT_HEADER: usize = 6;

    pub const SOURCE: usize = 8;

    pub const DESTINATION: usize = 24;
}

/// The header, in bytes.
pub(crate) const HEADER: usize = 40;

/// The fragment header, in bytes.
const FRAGMENT_HEADER: usize = 8;

/// The kinds of extension headers (assigned Internet protocol numbers).
mod kind {
    pub const HOP_BY_HOP: u8 = 0;

    pub const ROUTING: u8 = 43;

    pub const FRAGMENT: u8 = 44;

    pub const AUTHENTICATION: u8 = 51;

    pub const DESTINATION: u8 = 60;
}

/// One header of the chain: the kind that the header before it names, in the byte at `named_at`, and where it begins.
#[derive(Clone, Copy)]
pub(crate) struct Header {
    kind: u8,
    pub(crate) named_at: usize,
    pub(crate) at: usize,
}

/// What the headers say of which the first begins at `ip_at`, or the answer where one of their tests fits.
pub(crate) fn packet_v6(bytes: &[u8], ip_at: usize) -> Result<IpPacket, Decoded>
    requires size { length bytes.now ≤ MAX_PACKET_BYTES }
    requires place { ip_at ≤ 14 }
    ensures value { IsPacketV6 bytes.now ip_at result }
    ensures placed { IfOk result (IsPlaced bytes.now) }
{
    let end = match end_v6(bytes, ip_at) {
        Ok(end) => end,
        Err(answer) => return Err(answer),
    };
    let last = last_header(bytes, ip_at, end);
    if is_extension(last.kind) {
        return Err(Decoded::cut(end));
    }
    if last.kind == kind::FRAGMENT {
        return Err(fragment_answer(end, last.at));
    }
    Ok(IpPacket {
        src: Addr::V6(get128(bytes, ip_at + field::SOURCE)),
        dst: Addr::V6(get128(bytes, ip_at + field::DESTINATION)),
        proto: last.kind,
        ip_at,
        l4_at: last.at,
        end,
    })
}

/// The answer to a fragment header that begins at `at`.
fn fragment_answer(end: usize, at: usize) -> Decoded
    requires place { at ≤ end }
    requires size { end ≤ MAX_PACKET_BYTES }
    ensures { result ≡ fragment_answer end at }
{
    if end < at + FRAGMENT_HEADER {
        Decoded::cut(end)
    } else {
        Decoded::Skip
    }
}

/// Whether this is a fragment header of which all bytes stand before the packet's end.
pub(crate) fn is_fragment(header: Header, end: usize) -> bool
    requires place { header.at ≤ end }
    requires size { end ≤ MAX_PACKET_BYTES }
    ensures { result ≡ (header.kind == 44 && nat_le (header.at + 8) end) }
{
    header.kind == kind::FRAGMENT && header.at + FRAGMENT_HEADER <= end
}

/// Where the packet ends whose header begins at `ip_at`.
pub(crate) fn end_v6(bytes: &[u8], ip_at: usize) -> Result<usize, Decoded>
    requires size { length bytes.now ≤ MAX_PACKET_BYTES }
    requires place { ip_at ≤ 14 }
    ensures value { result ≡ end_v6 bytes.now ip_at }
    ensures header { IfOk result (λ end. ip_at + 40 ≤ end) }
    ensures whole { IfOk result (λ end. end ≤ length bytes.now) }
{
    let size = bytes.len();
    if size < ip_at + HEADER {
        return Err(Decoded::cut(size));
    }
    let end = ip_at + HEADER + payload_len(bytes, ip_at);
    if size < end {
        return Err(Decoded::cut(size));
    }
    Ok(end)
}

/// The length in bytes of what follows the header.
pub(crate) fn payload_len(bytes: &[u8], ip_at: usize) -> usize
    requires header { ip_at + 6 ≤ length bytes.now }
    requires size { length bytes.now ≤ MAX_PACKET_BYTES }
    ensures { result ≡ payload_len bytes.now ip_at }
{
    get16(bytes, ip_at + field::PAYLOAD_LEN) as usize
}

/// The last header of the chain that the header at `ip_at` begins.
pub(crate) fn last_header(bytes: &[u8], ip_at: usize, end: usize) -> Header
    requires header { ip_at + 40 ≤ end }
    requires whole { end ≤ length bytes.now }
    requires size { length bytes.now ≤ MAX_PACKET_BYTES }
    ensures last { HasLast bytes.now ip_at end result }
    ensures after { ip_at + 40 ≤ result.at }
    ensures before { result.at ≤ end }
    ensures named_behind { ip_at ≤ result.named_at }
    ensures named_before { result.named_at < result.at }
{
    let mut header = Header {
        kind: bytes[ip_at + field::NEXT_HEADER],
        named_at: ip_at + field::NEXT_HEADER,
        at: ip_at + HEADER,
    };
    'headers: while let Some(next) = next_header(bytes, end, header) {
        header = next;
    }
    header
}

/// The header behind a whole extension header.
fn next_header(bytes: &[u8], end: usize, header: Header) -> Option<Header>
    requires whole { end ≤ length bytes.now }
    requires size { length bytes.now ≤ MAX_PACKET_BYTES }
    requires place { header.at ≤ end }
    ensures value { result ≡ next_header bytes.now end header }
    ensures after { IfSome result (λ next. header.at < next.at) }
    ensures before { IfSome result (λ next. next.at ≤ end) }
    ensures named { IfSome result (λ next. next.named_at ≡ header.at) }
{
    if !is_extension(header.kind) || end < header.at + 2 {
        return None;
    }
    let next_at = header.at + extension_len(header.kind, bytes[header.at + 1]);
    if end < next_at {
        return None;
    }
    Some(Header {
        kind: bytes[header.at],
        named_at: header.at,
        at: next_at,
    })
}

/// Whether this is the kind of an extension header that has its length in its second byte.
fn is_extension(kind: u8) -> bool
    ensures { result ≡ is_extension kind }
{
    matches!(
        kind,
        kind::HOP_BY_HOP | kind::ROUTING | kind::AUTHENTICATION | kind::DESTINATION
    )
}

/// How many bytes an extension header has.
fn extension_len(kind: u8, len: u8) -> usize
    ensures { result ≡ extension_len kind len }
{
    if kind == kind::AUTHENTICATION {
        4 * (len as usize + 2)
    } else {
        8 * (len as usize + 1)
    }
}
