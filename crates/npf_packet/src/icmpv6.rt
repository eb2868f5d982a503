// ICMPv6 (RFC 4443); specs/Icmpv6.antt has the picture of its header.
ghost use Rattle.std.specs.Prelude.{◌≡◌, ◌≤◌, length};
ghost use Rattle.npf_packet.specs.Icmpv6.{decoding_icmpv6};
ghost use Rattle.npf_packet.specs.Packet.{IsPlaced};

use crate::decoded::Decoded;
use crate::icmp::{HEADER, echo_at, field};
use crate::packet::IpPacket;
use npf_fields::get16;
use npf_types::L4;
use npf_types::limits::MAX_PACKET_BYTES;

/// The types of the echo messages.
const ECHO_REPLY: u8 = 129;

const ECHO_REQUEST: u8 = 128;

/// What a packet says that carries ICMPv6, whose header has the fields of ICMP's.
pub(crate) fn decode_icmpv6(bytes: &[u8], packet: IpPacket) -> Decoded
    requires size { length bytes.now ≤ MAX_PACKET_BYTES }
    requires placed { IsPlaced bytes.now packet }
    ensures { result ≡ decoding_icmpv6 bytes.now packet }
{
    if packet.end < packet.l4_at + HEADER {
        return Decoded::cut(packet.end);
    }
    Decoded::Ip(packet.facts(L4::Icmp6 {
        kind: bytes[packet.l4_at + field::TYPE],
        code: bytes[packet.l4_at + field::CODE],
        echo: echo_at(bytes, packet.l4_at, ECHO_REQUEST, ECHO_REPLY),
    }))
}
