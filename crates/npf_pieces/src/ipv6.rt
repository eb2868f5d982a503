// Fragments of IPv6 (RFC 8200 section 4.5).
ghost use Rattle.std.specs.Prelude.{◌≡◌, length, true};
ghost use Rattle.npf_packet.specs.Decoder.{packet_at};
ghost use Rattle.npf_packet.specs.FragmentAt.{IsPlacedFragment};
ghost use Rattle.npf_pieces.specs.Ipv6.{piece_v6};
ghost use Rattle.npf_pieces.specs.Piece.{BeginsUnit, IsPlacedPiece};

use crate::piece::{FragKey, Piece};
use npf_fields::{get16, get32, get128};
use npf_packet::FragmentAt;
use npf_traffic::Packet;
use npf_types::Addr;

/// The offsets of the header's fields, in bytes.
mod field {
    pub const SOURCE: usize = 8;

    pub const DESTINATION: usize = 24;
}

/// The offsets of the fragment header's fields, and its length, in bytes.
mod fragment {
    pub const OFFSET: usize = 2;

    pub const IDENTIFICATION: usize = 4;

    pub const LEN: u32 = 8;
}

/// What the fragment of IPv6 that is found in the packet says.
pub(crate) fn piece_v6(packet: &Packet<'_>, found: FragmentAt) -> Piece
    requires version { found.v6 ≡ true }
    requires placed { IsPlacedFragment (packet_at packet.now.link) (length packet.now.bytes) found }
    ensures value { result ≡ piece_v6 packet.now found }
    ensures begins { BeginsUnit result }
    ensures placed { IsPlacedPiece (length packet.now.bytes) result }
{
    let bytes = packet.bytes.as_slice();
    let ip_at = found.ip_at as usize;
    let header = found.at as usize;
    let offset = get16(bytes, header + fragment::OFFSET);
    let key = FragKey {
        ifid: packet.ifid,
        dir: packet.dir,
        src: Addr::V6(get128(bytes, ip_at + field::SOURCE)),
        dst: Addr::V6(get128(bytes, ip_at + field::DESTINATION)),
        proto: 0,
        id: get32(bytes, header + fragment::IDENTIFICATION),
    };
    Piece {
        key,
        from: 8 * u32::from(offset >> 3),
        last: offset & 1 == 0,
        ip_at: found.ip_at,
        next_at: found.named_at,
        next: bytes[header],
        head_end: found.at,
        data_at: found.at + fragment::LEN,
        end: found.end,
    }
}
