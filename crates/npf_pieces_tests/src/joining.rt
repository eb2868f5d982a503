// Two packets in the order in which they come, once the datagrams that their pieces make stand in their places.
ghost use Rattle.std.specs.Prelude.{◌≡◌, ◌<◌, ◌≤◌, All, IfOk, IfSome, length};
ghost use Rattle.npf_types.specs.declared.limits.TheConstants.{MAX_PACKET_BYTES};
ghost use Rattle.npf_traffic.specs.Packet.{IsShortPacket};
ghost use Rattle.npf_pieces.specs.Datagram.{StandsAmong, WholeIfComplete};
ghost use Rattle.npf_pieces.specs.Datagrams.{laid_out};
ghost use Rattle.npf_pieces.specs.Overlap.{IsTaken};
ghost use Rattle.npf_pieces.specs.Sets.{set_at};

use npf_pieces::{
    Arrived, DatagramBytes, Datagrams, Ending, Seen, SetAt, complete_set_is_whole, piece_of,
    sets_of,
};
use npf_traffic::{Packet, PacketBytes};
use npf_types::{Dir, IfId, Link, NoMemory};
use std::alloc::Global;

/// The sets that the pieces among two packets make, and what bytes both have then.
#[derive(Drop)]
pub(crate) struct Joined {
    pub(crate) sets: Vec<SetAt>,
    pub(crate) one: Vec<u8>,
    pub(crate) other: Vec<u8>,
}

fn packet<'a>(link: Link, time: u64, bytes: &'a mut [u8]) -> Packet<'a>
    ensures { result.bytes ≡ bytes.old }
{
    Packet {
        time,
        link,
        ifid: IfId(3),
        dir: Dir::Out,
        held: None,
        bytes: PacketBytes::of(bytes),
    }
}

/// The piece that the packet of this place is, if it is one.
fn piece_among(packets: &[Packet<'_>], place: usize) -> Option<Arrived>
    requires short { All IsShortPacket packets.now }
    requires here { place < length packets.now }
    ensures taken { IfSome result IsTaken }
    ensures stands { IfSome result (StandsAmong packets.now) }
{
    let packet = &packets[place];
    match piece_of(packet) {
        Seen::Piece(piece) => Some(Arrived {
            place,
            time: packet.time,
            piece,
        }),
        _ => None,
    }
}

/// Puts the piece that the packet of this place is, if it is one, behind the others.
fn add_if_piece(
    arrived: &mut Vec<Arrived>,
    packets: &[Packet<'_>],
    place: usize,
) -> Result<(), NoMemory>
    requires short { All IsShortPacket packets.now }
    requires here { place < length packets.now }
    requires taken { All IsTaken arrived.old.items }
    requires stand { All (StandsAmong packets.now) arrived.old.items }
    ensures taken { IfOk result (λ _. All IsTaken arrived.new.items) }
    ensures stand { IfOk result (λ _. All (StandsAmong packets.now) arrived.new.items) }
{
    let Some(piece) = piece_among(packets, place) else {
        return Ok(());
    };
    arrived.push(piece)?;
    Ok(())
}

/// The pieces among the packets.
fn pieces_among(alloc: Global, packets: &[Packet<'_>]) -> Result<Vec<Arrived>, NoMemory>
    requires { All IsShortPacket packets.now }
    ensures taken { IfOk result (λ arrived. All IsTaken arrived.items) }
    ensures stand { IfOk result (λ arrived. All (StandsAmong packets.now) arrived.items) }
{
    let mut arrived = Vec::new(alloc);
    for place in 0..packets.len() {
        add_if_piece(&mut arrived, packets, place)?;
    }
    Ok(arrived)
}

/// Lays out the datagram of a set, if it is complete.
fn add_if_complete(
    datagrams: &mut Datagrams,
    packets: &[Packet<'_>],
    arrived: &[Arrived],
    set: &SetAt,
) -> Result<(), NoMemory>
    requires stand { All (StandsAmong packets.now) arrived.now }
    requires whole { WholeIfComplete (set_at arrived.now set.now) }
    requires here { All (λ d. d.place < length packets.now) (laid_out datagrams.old) }
    ensures here { IfOk result (λ _. All (λ d. d.place < length packets.now) (laid_out datagrams.new)) }
{
    let within = set.first <= set.behind && set.behind <= arrived.len();
    if within && set.ending == Ending::Complete {
        datagrams.add(packets, &arrived[set.first..set.behind])?;
    }
    Ok(())
}

/// The datagrams of those of the sets that are complete.
fn lay_out(
    alloc: Global,
    packets: &[Packet<'_>],
    arrived: &[Arrived],
    sets: &[SetAt],
) -> Result<Datagrams, NoMemory>
    requires stand { All (StandsAmong packets.now) arrived.now }
    requires whole { All (λ set. WholeIfComplete (set_at arrived.now set)) sets.now }
    ensures { IfOk result (λ datagrams. All (λ d. d.place < length packets.now) (laid_out datagrams)) }
{
    let mut datagrams = Datagrams::new(alloc);
    for set in sets {
        add_if_complete(&mut datagrams, packets, arrived, set)?;
    }
    Ok(datagrams)
}

/// Puts the datagrams of the packets' pieces, which are all of one key, in place of those that made them whole.
fn join_pieces<'a>(
    alloc: Global,
    keeper: &'a mut DatagramBytes,
    packets: &mut [Packet<'a>],
) -> Result<Vec<SetAt>, NoMemory>
    requires { All IsShortPacket packets.old }
{
    let arrived = pieces_among(alloc, packets)?;
    let sets = sets_of(alloc, arrived.as_slice())?;
    complete_set_is_whole();
    let datagrams = lay_out(alloc, packets, arrived.as_slice(), sets.as_slice())?;
    datagrams.put_into(keeper, packets);
    Ok(sets)
}

/// Two packets of these bytes, a second apart.
pub(crate) fn put_together(
    alloc: Global,
    link: Link,
    one: &[u8],
    other: &[u8],
) -> Result<Joined, NoMemory>
    requires one { length one.now ≤ MAX_PACKET_BYTES }
    requires other { length other.now ≤ MAX_PACKET_BYTES }
{
    let mut keeper = DatagramBytes::new(alloc);
    let mut one = Vec::from_slice(alloc, one)?;
    let mut other = Vec::from_slice(alloc, other)?;
    let mut packets = [
        packet(link, 1_000_000_000, one.as_mut_slice()),
        packet(link, 2_000_000_000, other.as_mut_slice()),
    ];
    let sets = join_pieces(alloc, &mut keeper, &mut packets)?;
    Ok(Joined {
        sets,
        one: Vec::from_slice(alloc, packets[0].bytes.as_slice())?,
        other: Vec::from_slice(alloc, packets[1].bytes.as_slice())?,
    })
}
