// How much of a datagram a piece has, in bytes and in units of 8 bytes, and how long a set waits.
ghost use Rattle.std.specs.Prelude.{◌≡◌, ◌+◌, ◌/◌, ◌≤◌};
ghost use Rattle.npf_pieces.specs.Piece.{IsPlacedPiece, end_of};
ghost use Rattle.npf_pieces.specs.Overlap.{beginning_header};
ghost use Rattle.npf_pieces.specs.Sets.{has_waited, header_counted};

use crate::piece::Piece;
use npf_types::Addr;
use npf_types::limits::MAX_PACKET_BYTES;

/// The header of IPv6 without extension headers, in bytes (RFC 8200 section 3).
const FIXED_HEADER_V6: u32 = 40;

/// Nanoseconds that a set waits for its pieces.
const WAIT: u64 = 30_000_000_000;

/// Whether a set that began then, if it did, has waited too long by now.
pub(crate) fn has_waited(begun: Option<u64>, now: u64) -> bool
    ensures { result ≡ has_waited begun now }
{
    match begun {
        None => false,
        Some(begun) => now.saturating_sub(begun) >= WAIT,
    }
}

/// The unit with this byte.
pub(crate) fn unit_of(byte: u32) -> usize
    ensures { result ≡ byte / 8 }
{
    byte as usize / 8
}

/// How many units have bytes in front of this one.
pub(crate) fn units_below(byte: u32) -> usize
    requires { byte ≤ 65535 }
    ensures { result ≡ (byte + 7) / 8 }
{
    byte.div_ceil(8) as usize
}

/// Where the data of the piece end.
pub(crate) fn end_of(piece: &Piece) -> u32
    requires { (piece.now.data_at ≤ piece.now.end) × (end_of piece.now ≤ 65535) }
    ensures { result ≡ end_of piece.now }
{
    piece.from + (piece.end - piece.data_at)
}

/// What the piece's header adds to the length that the datagram tells.
pub(crate) fn header_counted(piece: &Piece) -> u32
    requires { IsPlacedPiece MAX_PACKET_BYTES piece.now }
    ensures value { result ≡ header_counted piece.now }
    ensures within { result ≤ MAX_PACKET_BYTES }
{
    let header = piece.head_end - piece.ip_at;
    match piece.key.src {
        Addr::V4(_) => header,
        Addr::V6(_) => header - FIXED_HEADER_V6,
    }
}

/// The same, where the piece begins its datagram.
pub(crate) fn beginning_header(piece: &Piece) -> u32
    requires { IsPlacedPiece MAX_PACKET_BYTES piece.now }
    ensures value { result ≡ beginning_header piece.now }
    ensures within { result ≤ MAX_PACKET_BYTES }
{
    if piece.from == 0 {
        header_counted(piece)
    } else {
        0
    }
}
