// Fragments of IPv4 and IPv6 packets (RFC 791, RFC 8200).
ghost use Rattle.std.specs.Prelude.{◌≡◌, ◌+◌, ◌-◌, ◌≤◌, length};
ghost use Rattle.npf_packet.specs.Decoder.{packet_at};
ghost use Rattle.npf_packet.specs.FragmentAt.{IsPlacedFragment};
ghost use Rattle.npf_traffic.specs.Packet.{IsShortPacket};
ghost use Rattle.npf_pieces.specs.Piece.{IfPiece, BeginsUnit, IsGood, IsPlacedPiece, SeenAs, is_bad, piece_at};

use crate::ipv4::piece_v4;
use crate::ipv6::piece_v6;
use npf_packet::{FragmentAt, fragment};
use npf_traffic::Packet;
use npf_types::{Addr, Dir, IfId};

/// What the pieces of one datagram have in common: where they cross, both addresses, IPv4's protocol (0 for IPv6) and the
/// identification (RFC 791 section 2.3, RFC 8200 section 4.5).
#[derive(Clone, Copy, Debug, PartialEq, Eq, PartialOrd, Ord, Hash)]
pub struct FragKey {
    pub ifid: IfId,
    pub dir: Dir,
    pub src: Addr,
    pub dst: Addr,
    pub proto: u8,
    pub id: u32,
}

/// A piece of a datagram: its data stand from `data_at` to `end` in the packet's bytes, and from `from` on in the datagram's
/// data, which end with it where it is the `last`. Its IP header begins at `ip_at`. In IPv6 the byte at `next_at` names the
/// fragment header, which begins at `head_end` and names `next`; in IPv4 the header ends at `head_end`, and both others are 0.
#[derive(Clone, Copy, Debug, PartialEq, Eq)]
pub struct Piece {
    pub key: FragKey,
    pub from: u32,
    pub last: bool,
    pub ip_at: u32,
    pub next_at: u32,
    pub next: u8,
    pub head_end: u32,
    pub data_at: u32,
    pub end: u32,
}

/// What a packet is for those who put fragments together.
#[derive(Clone, Copy, Debug, PartialEq, Eq)]
pub enum Seen {
    /// A packet that is whole, or that isn't looked into.
    NoFragment,
    /// A fragment of no datagram: it isn't the last and its length is no multiple of 8, or it is empty and isn't all of its
    /// datagram, or it ends behind byte 65,535.
    Bad,
    /// A piece of the datagram of its key.
    Piece(Piece),
}

/// Whether the packet is a fragment, and of what.
#[tactic(auto, using(crate::proofs::PieceLemmas::good_unless_bad))]
pub fn piece_of(packet: &Packet<'_>) -> Seen
    requires { IsShortPacket packet.now }
    ensures sees { SeenAs packet.now result }
    ensures good { IfPiece IsGood result }
    ensures placed { IfPiece (IsPlacedPiece (length packet.now.bytes)) result }
{
    let found = match fragment(packet.link, packet.bytes.as_slice()) {
        Some(found) => found,
        None => return Seen::NoFragment,
    };
    let piece = piece_at(packet, found);
    if is_bad(&piece) {
        Seen::Bad
    } else {
        Seen::Piece(piece)
    }
}

/// What the fragment that is found in the packet says.
fn piece_at(packet: &Packet<'_>, found: FragmentAt) -> Piece
    requires { IsPlacedFragment (packet_at packet.now.link) (length packet.now.bytes) found }
    ensures value { result ≡ piece_at packet.now found }
    ensures begins { BeginsUnit result }
    ensures placed { IsPlacedPiece (length packet.now.bytes) result }
{
    if found.v6 {
        piece_v6(packet, found)
    } else {
        piece_v4(packet, found)
    }
}

/// Whether it can be no piece of a datagram.
fn is_bad(piece: &Piece) -> bool
    requires places { piece.now.data_at ≤ piece.now.end }
    requires fits { piece.now.from + (piece.now.end - piece.now.data_at) ≤ u32.MAX }
    ensures { result ≡ is_bad piece.now }
{
    let size = piece.end - piece.data_at;
    let torn = !piece.last && size % 8 != 0;
    let whole = piece.from == 0 && piece.last;
    torn || (size == 0 && !whole) || piece.from + size > MAX_DATA
}

/// Bytes of data of a datagram at most (RFC 791 section 3.1: a total length has 16 bits).
const MAX_DATA: u32 = 65_535;
