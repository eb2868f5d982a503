// UDP (RFC 768); specs/Udp.antt has the picture of its header.
ghost use Rattle.std.specs.Prelude.{◌≡◌, ◌≤◌, length};
ghost use Rattle.npf_packet.specs.Packet.{IsPlaced};
ghost use Rattle.npf_packet.specs.Udp.{decoding_udp};

use crate::decoded::Decoded;
use crate::packet::IpPacket;
use npf_fields::get16;
use npf_types::L4;
use npf_types::limits::MAX_PACKET_BYTES;

/// The offsets of the header's fields, in bytes.
mod field {
    pub const SOURCE_PORT: usize = 0;

    pub const DESTINATION_PORT: usize = 2;
}

/// The header, in bytes.
const HEADER: usize = 8;

/// What a packet says that carries UDP.
pub(crate) fn decode_udp(bytes: &[u8], packet: IpPacket) -> Decoded
    requires size { length bytes.now ≤ MAX_PACKET_BYTES }
    requires placed { IsPlaced bytes.now packet }
    ensures { result ≡ decoding_udp bytes.now packet }
{
    if packet.end < packet.l4_at + HEADER {
        return Decoded::cut(packet.end);
    }
    Decoded::Ip(packet.facts(L4::Udp {
        sport: get16(bytes, packet.l4_at + field::SOURCE_PORT),
        dport: get16(bytes, packet.l4_at + field::DESTINATION_PORT),
    }))
}
