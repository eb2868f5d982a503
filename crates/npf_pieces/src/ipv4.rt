// Fragments of IPv4 (RFC 791 section 3.1).
ghost use Rattle.std.specs.Prelude.{◌≡◌, length, false};
ghost use Rattle.npf_packet.specs.Decoder.{packet_at};
ghost use Rattle.npf_packet.specs.FragmentAt.{IsPlacedFragment};
ghost use Rattle.npf_pieces.specs.Ipv4.{piece_v4};
ghost use Rattle.npf_pieces.specs.Piece.{BeginsUnit, IsPlacedPiece};

use crate::piece::{FragKey, Piece};
use npf_fields::{get16, get32};
use npf_packet::FragmentAt;
use npf_traffic::Packet;
use npf_types::Addr;

/// The offsets of the header's fields, in bytes.
mod field {
    pub const IDENTIFICATION: usize = 4;

    pub const FRAGMENT: usize = 6;

    pub const PROTOCOL: usize = 9;

    pub const SOURCE: usize = 12;

    pub const DESTINATION: usize = 16;
}

/// What the fragment of IPv4 that is found in the packet says.
pub(crate) fn piece_v4(packet: &Packet<'_>, found: FragmentAt) -> Piece
    requires version { found.v6 ≡ false }
    requires placed { IsPlacedFragment (packet_at packet.now.link) (length packet.now.bytes) found }
    ensures value { result ≡ piece_v4 packet.now found }
    ensures begins { BeginsUnit result }
    ensures placed { IsPlacedPiece (length packet.now.bytes) result }
{
    let bytes = packet.bytes.as_slice();
    let ip_at = found.ip_at as usize;
    let fragment = get16(bytes, ip_at + field::FRAGMENT);
    let key = FragKey {
        ifid: packet.ifid,
        dir: packet.dir,
        src: Addr::V4(get32(bytes, ip_at + field::SOURCE)),
        dst: Addr::V4(get32(bytes, ip_at + field::DESTINATION)),
        proto: bytes[ip_at + field::PROTOCOL],
        id: u32::from(get16(bytes, ip_at + field::IDENTIFICATION)),
    };
    Piece {
        key,
        from: 8 * u32::from(fragment & 0x1fff),
        last: fragment >> 13 & 1 == 0,
        ip_at: found.ip_at,
        next_at: 0,
        next: 0,
        head_end: found.at,
        data_at: found.at,
        end: found.end,
    }
}
