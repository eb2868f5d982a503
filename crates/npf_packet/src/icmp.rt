// ICMP (RFC 792); specs/Icmp.antt has the picture of its header.
ghost use Rattle.std.specs.Prelude.{◌≡◌, ◌+◌, ◌≤◌, length};
ghost use Rattle.npf_packet.specs.Icmp.{decoding_icmp, echo_of};
ghost use Rattle.npf_packet.specs.Packet.{IsPlaced};

use crate::decoded::Decoded;
use crate::packet::IpPacket;
use npf_fields::get16;
use npf_types::L4;
use npf_types::limits::MAX_PACKET_BYTES;

/// The offsets of the header's fields, in bytes.
pub(crate) mod field {
    pub const TYPE: usize = 0;

    pub const CODE: usize = 1;

    pub const IDENTIFIER: usize = 4;
}

/// The header, in bytes.
pub(crate) const HEADER: usize = 8;

/// The types of the echo messages.
const ECHO_REPLY: u8 = 0;

const ECHO: u8 = 8;

/// What a packet says that carries ICMP.
pub(crate) fn decode_icmp(bytes: &[u8], packet: IpPacket) -> Decoded
    requires size { length bytes.now ≤ MAX_PACKET_BYTES }
    requires placed { IsPlaced bytes.now packet }
    ensures { result ≡ decoding_icmp bytes.now packet }
{
    if packet.end < packet.l4_at + HEADER {
        return Decoded::cut(packet.end);
    }
    Decoded::Ip(packet.facts(L4::Icmp {
        kind: bytes[packet.l4_at + field::TYPE],
        code: bytes[packet.l4_at + field::CODE],
        echo: echo_at(bytes, packet.l4_at, ECHO, ECHO_REPLY),
    }))
}

/// The identifier of an echo message, whose type is one of these.
pub(crate) fn echo_at(bytes: &[u8], at: usize, request: u8, reply: u8) -> Option<u16>
    requires whole { at + 8 ≤ length bytes.now }
    requires size { length bytes.now ≤ MAX_PACKET_BYTES }
    ensures { result ≡ echo_of request reply bytes.now at }
{
    let kind = bytes[at + field::TYPE];
    if kind == request || kind == reply {
        return Some(get16(bytes, at + field::IDENTIFIER));
    }
    None
}
