// One datagram of the pieces of a whole set.
ghost use Rattle.std.specs.Prelude.{◌≡◌, ◌+◌, ◌-◌, ◌≤◌, false, All, AllPairs, Contains, length};
ghost use Rattle.npf_types.specs.declared.limits.TheConstants.{MAX_PACKET_BYTES};
ghost use Rattle.npf_pieces.specs.Datagram.{HasPacketBytes, HasDataAt, IsDatagram, IsWholeSet, KeepsOthers, StandsAmong};
ghost use Rattle.npf_pieces.specs.Datagrams.{last_place};
ghost use Rattle.npf_pieces.specs.Overlap.{IsTaken};
ghost use Rattle.npf_pieces.specs.Piece.{end_of};
ghost use Rattle.npf_pieces.specs.Sets.{reach, shares_byte};

use crate::arrived::Arrived;
use crate::header::put_header;
use crate::measure::{end_of, header_counted};
use npf_traffic::Packet;

/// How many bytes the datagram of a set has that this piece begins.
pub(crate) fn datagram_len(set: &[Arrived], first: &Arrived) -> usize
    requires taken { All IsTaken set.now }
    requires first { Contains set.now first.now }
    ensures value { result ≡ (first.now.piece.head_end - first.now.piece.ip_at) + reach set.now }
    ensures within { result ≤ MAX_PACKET_BYTES + 65535 }
{
    (first.piece.head_end - first.piece.ip_at) as usize + reach(set) as usize
}

/// Where the data of these pieces end.
fn reach(set: &[Arrived]) -> u32
    requires { All IsTaken set.now }
    ensures value { result ≡ reach set.now }
    ensures within { result ≤ 65535 }
{
    let mut reach = 0;
    for arrived in set {
        reach = reach.max(end_of(&arrived.piece));
    }
    reach
}

/// The piece that begins the datagram of a whole set.
pub(crate) fn first_of(set: &[Arrived]) -> &Arrived
    requires { IsWholeSet set.now }
    ensures among { Contains set.now result.now }
    ensures begins { result.now.piece.from ≡ 0 }
{
    for arrived in set {
        if arrived.piece.from == 0 {
            return arrived;
        }
    }
    unreachable!()
}

/// The place of the last of a set to come.
pub(crate) fn last_place(set: &[Arrived]) -> usize
    requires { 1 ≤ length set.now }
    ensures { result ≡ last_place set.now }
{
    set[set.len() - 1].place
}

/// Lays out the datagram of a whole set that this piece begins.
pub(crate) fn lay_out(bytes: &mut [u8], packets: &[Packet<'_>], set: &[Arrived], first: &Arrived)
    requires whole { IsWholeSet set.now }
    requires stand { All (StandsAmong packets.now) set.now }
    requires first { Contains set.now first.now }
    requires begins { first.now.piece.from ≡ 0 }
    requires long { length bytes.old ≡ (first.now.piece.head_end - first.now.piece.ip_at) + reach set.now }
    ensures { IsDatagram packets.now set.now bytes.new }
{
    let piece = &first.piece;
    let told = header_counted(piece) + reach(set);
    let old = packet_bytes(packets, first, piece.ip_at, piece.head_end);
    let (header, carried) = bytes.split_at_mut(old.len());
    header.copy_from_slice(old);
    put_header(header, piece, told as u16);
    put_data(carried, packets, set);
}

/// Writes the data of the pieces to their places.
fn put_data(carried: &mut [u8], packets: &[Packet<'_>], set: &[Arrived])
    requires taken { All IsTaken set.now }
    requires apart { AllPairs (λ a b. shares_byte a b ≡ false) set.now }
    requires stand { All (StandsAmong packets.now) set.now }
    requires long { length carried.old ≡ reach set.now }
    ensures { All (HasDataAt packets.now carried.new) set.now }
{
    for arrived in set {
        put_piece(carried, packets, arrived);
    }
}

/// Writes the data of a piece to their place.
fn put_piece(carried: &mut [u8], packets: &[Packet<'_>], arrived: &Arrived)
    requires taken { IsTaken arrived.now }
    requires stands { StandsAmong packets.now arrived.now }
    requires within { end_of arrived.now.piece ≤ length carried.old }
    ensures has { HasDataAt packets.now carried.new arrived.now }
    ensures others { KeepsOthers carried.old carried.new arrived.now.piece.from (end_of arrived.now.piece) }
{
    let piece = &arrived.piece;
    let own = packet_bytes(packets, arrived, piece.data_at, piece.end);
    let end = end_of(piece) as usize;
    carried[piece.from as usize..end].copy_from_slice(own);
}

/// The bytes of the piece's packet from one place on up to another.
fn packet_bytes<'a>(packets: &'a [Packet<'_>], arrived: &Arrived, from: u32, to: u32) -> &'a [u8]
    requires stands { StandsAmong packets.now arrived.now }
    requires order { from ≤ to }
    requires within { to ≤ arrived.now.piece.end }
    ensures has { HasPacketBytes packets.now arrived.now from to result.now }
    ensures long { length result.now ≡ to - from }
{
    &packets[arrived.place].bytes.as_slice()[from as usize..to as usize]
}
