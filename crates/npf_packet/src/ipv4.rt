// IPv4 (RFC 791 section 3.1); specs/Ipv4.antt has the picture of its header.
ghost use Rattle.std.specs.Prelude.{◌≡◌, ◌+◌, ◌*◌, ◌%◌, ◌==◌, ◌≤◌, not, length, IfOk};
ghost use Rattle.npf_packet.specs.Ipv4.{is_fragment, packet_v4, total_len, whole_v4};
ghost use Rattle.npf_packet.specs.Packet.{IsPlaced};

use crate::decoded::Decoded;
use crate::packet::IpPacket;
use npf_fields::{get16, get32};
use npf_types::Addr;
use npf_types::limits::MAX_PACKET_BYTES;

/// The offsets of the header's fields, in bytes.
mod field {
    pub const TOTAL_LEN: usize = 2;

    pub const FRAGMENT: usize = 6;

    pub const PROTOCOL: usize = 9;

    pub const SOURCE: usize = 12;

    pub const DESTINATION: usize = 16;
}

/// The header without options, in bytes.
const HEADER: usize = 20;

/// What the header says that begins at `ip_at`, or the answer where one of its tests fits.
pub(crate) fn packet_v4(bytes: &[u8], ip_at: usize) -> Result<IpPacket, Decoded>
    requires size { length bytes.now ≤ MAX_PACKET_BYTES }
    requires place { ip_at ≤ 14 }
    ensures value { result ≡ packet_v4 bytes.now ip_at }
    ensures placed { IfOk result (IsPlaced bytes.now) }
{
    let packet = match whole_v4(bytes, ip_at) {
        Ok(packet) => packet,
        Err(answer) => return Err(answer),
    };
    if is_fragment(bytes, ip_at) {
        return Err(Decoded::Skip);
    }
    Ok(packet)
}

/// The same of a packet that may be a fragment.
pub(crate) fn whole_v4(bytes: &[u8], ip_at: usize) -> Result<IpPacket, Decoded>
    requires size { length bytes.now ≤ MAX_PACKET_BYTES }
    requires place { ip_at ≤ 14 }
    ensures value { result ≡ whole_v4 bytes.now ip_at }
    ensures placed { IfOk result (IsPlaced bytes.now) }
    ensures header { IfOk result (λ packet. ip_at + 20 ≤ packet.l4_at) }
{
    let size = bytes.len();
    if size < ip_at + HEADER {
        return Err(Decoded::cut(size));
    }
    let header_len = header_len(bytes[ip_at]);
    if header_len < HEADER {
        return Err(Decoded::bad(ip_at));
    }
    let total_len = total_len(bytes, ip_at);
    if total_len < header_len {
        return Err(Decoded::bad(ip_at + field::TOTAL_LEN));
    }
    if size < ip_at + total_len {
        return Err(Decoded::cut(size));
    }
    Ok(IpPacket {
        src: Addr::V4(get32(bytes, ip_at + field::SOURCE)),
        dst: Addr::V4(get32(bytes, ip_at + field::DESTINATION)),
        proto: bytes[ip_at + field::PROTOCOL],
        ip_at,
        l4_at: ip_at + header_len,
        end: ip_at + total_len,
    })
}

/// The header's length in bytes, from its first byte.
fn header_len(first: u8) -> usize
    ensures { result ≡ 4 * (first % 16) }
{
    4 * (first & 15) as usize
}

/// The packet's length in bytes, its header with it.
pub(crate) fn total_len(bytes: &[u8], ip_at: usize) -> usize
    requires header { ip_at + 4 ≤ length bytes.now }
    requires size { length bytes.now ≤ MAX_PACKET_BYTES }
    ensures { result ≡ total_len bytes.now ip_at }
{
    get16(bytes, ip_at + field::TOTAL_LEN) as usize
}

/// Whether more fragments follow or the offset isn't 0.
pub(crate) fn is_fragment(bytes: &[u8], ip_at: usize) -> bool
    requires header { ip_at + 20 ≤ length bytes.now }
    requires size { length bytes.now ≤ MAX_PACKET_BYTES }
    ensures { result ≡ is_fragment bytes.now ip_at }
{
    get16(bytes, ip_at + field::FRAGMENT) & 0x3fff != 0
}
