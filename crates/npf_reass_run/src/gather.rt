// The pieces among the packets of a run, gathered in classes by workers at one time.
ghost use Rattle.std.specs.Prelude.{◌≡◌, ◌≤◌, false, true, All, IfOk, length};
ghost use Rattle.std.specs.List.{AllZip};
ghost use Rattle.npf_pieces.specs.declared.piece.Seen.TheVariants.{NoFragment};
ghost use Rattle.npf_pieces.specs.Piece.{SeenAs};
ghost use Rattle.npf_traffic.specs.Packet.{IsShortPacket};
ghost use Rattle.npf_reass_run.specs.Gathering.{GathersPieces, HasListed, IsArrivedOffer, IsOfferAmong};

use crate::offer::offer_all;
use crate::scan::Lent;
use npf_pieces::{Arrived, Piece, Seen, piece_of};
use npf_reass::Reass;
use npf_reass_sets::ClassSets;
use npf_traffic::Packet;
use npf_types::NoMemory;
use std::alloc::Global;
use std::sync::Wait;
use std::thread::Threads;

/// After how many pieces a list of offers gives back the room that they took.
const GIVEN_BACK: usize = 4096;

/// Whether one of the packets is a fragment.
pub(crate) fn has_fragment(packets: &[Packet<'_>]) -> bool
    requires { All IsShortPacket packets.now }
    ensures { result ≡ false → All (λ packet. SeenAs packet NoFragment) packets.now }
{
    for packet in packets {
        if !is_whole(packet) {
            return true;
        }
    }
    false
}

/// Whether the packet is no fragment.
fn is_whole(packet: &Packet<'_>) -> bool
    requires { IsShortPacket packet.now }
    ensures { result ≡ true → SeenAs packet.now NoFragment }
{
    matches!(piece_of(packet), Seen::NoFragment)
}

/// The pieces among the packets, in so many classes, gathered by so many workers at one time.
pub(crate) fn gather<R: Threads + Wait + Sync>(
    rt: &R,
    alloc: Global,
    packets: &[Packet<'_>],
    count: u32,
    workers: u32,
) -> Result<Vec<ClassSets>, NoMemory>
    requires short { All IsShortPacket packets.now }
    requires count { (1 ≤ count) × (count ≤ 4096) }
    requires workers { (1 ≤ workers) × (workers ≤ 64) }
    ensures count { IfOk result (λ classes. length classes.items ≡ count) }
    ensures gathers { IfOk result (λ classes. GathersPieces packets.now classes.items) }
{
    let (reass, pass) = Reass::new(alloc, count, workers)?;
    let scan = Lent { packets };
    let (pass, offered) = offer_all(rt, &reass, pass, &scan, packets.len(), workers);
    offered?;
    let lists = reass.close(alloc, pass)?;
    arrived_lists(alloc, packets, lists)
}

/// The classes of which these are the lists of offers. Each list is let go while its class grows.
fn arrived_lists(
    alloc: Global,
    packets: &[Packet<'_>],
    lists: Vec<Vec<(u64, Piece)>>,
) -> Result<Vec<ClassSets>, NoMemory>
    requires among { All (λ list. All (IsOfferAmong packets.now) list.items) lists.items }
    ensures { IfOk result (λ classes. AllZip (λ list class. HasListed packets.now list.items class)
        lists.items classes.items) }
{
    let mut classes = Vec::with_capacity(alloc, lists.len())?;
    for list in lists {
        classes.push_reserved(arrived_list(alloc, packets, list)?);
    }
    Ok(classes)
}

/// The class of which this is the list of offers. It is gone through from its end, and gives its
/// room back on the way: all pieces of a run may be of one class, and so they take room once.
fn arrived_list(
    alloc: Global,
    packets: &[Packet<'_>],
    list: Vec<(u64, Piece)>,
) -> Result<ClassSets, NoMemory>
    requires { All (IsOfferAmong packets.now) list.items }
    ensures { IfOk result (HasListed packets.now list.items) }
{
    let mut offers = list;
    let mut arrived = Vec::with_capacity(alloc, offers.len())?;
    while let Some(offer) = offers.pop() {
        arrived.push_reserved(arrived_offer(packets, offer));
        give_back(&mut offers);
    }
    arrived.reverse();
    let mut class = ClassSets::new(alloc);
    class.arrived = arrived;
    Ok(class)
}

/// Gives back the room of the offers that were taken, each time that there are so many of them.
fn give_back(offers: &mut Vec<(u64, Piece)>)
    ensures { offers.new.items ≡ offers.old.items }
{
    if offers.len() % GIVEN_BACK == 0 {
        offers.shrink_to_fit();
    }
}

/// The piece that was offered, with the time of its packet.
fn arrived_offer(packets: &[Packet<'_>], offer: (u64, Piece)) -> Arrived
    requires { IsOfferAmong packets.now offer }
    ensures { IsArrivedOffer packets.now offer result }
{
    let (n, piece) = offer;
    let place = n as usize;
    Arrived {
        place,
        time: packets[place].time,
        piece,
    }
}
