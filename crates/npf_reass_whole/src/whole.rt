// The packets of a run by the sets of their pieces.
ghost use Rattle.std.specs.Prelude.{◌≡◌, ◌<◌, ◌≤◌, [], ◌∷◌, All, IfOk, length};
ghost use Rattle.npf_pieces.specs.Datagram.{StandsAmong, WholeIfComplete};
ghost use Rattle.npf_pieces.specs.Datagrams.{laid_out};
ghost use Rattle.npf_pieces.specs.Piece.{SeenAs};
ghost use Rattle.npf_pieces.specs.Sets.{StandsIn, set_at};
ghost use Rattle.npf_pieces.specs.declared.piece.Seen.{Seen as SeenType};
ghost use Rattle.npf_traffic.specs.Packet.{IsShortPacket};
ghost use Rattle.npf_reass_sets.specs.Class.{class_sets};
ghost use Rattle.npf_reass_whole.specs.Run.{AddsDatagrams, CanLayOut, DecidesRun, HasPlacesBelow, HeldIfBad, HoldsBad, LaysOut, PutsAll, all_sets, why_held, with_held, with_sets_held};
ghost use Rattle.npf_reass_whole.specs.Whole.{Whole};

use npf_pieces::{
    Arrived, DatagramBytes, Datagrams, Ending, Seen, SetAt, complete_set_is_whole, one_seeing,
    piece_of,
};
use npf_reass_sets::ClassSets;
use npf_traffic::{FragWhy, Packet};
use npf_types::NoMemory;
use std::alloc::Global;

/// The packets, where the sets of their pieces are these: datagrams stand in the keeper, in place of what was there.
pub fn put_together<'a>(
    alloc: Global,
    packets: Vec<Packet<'a>>,
    classes: &[ClassSets],
    keeper: &'a mut DatagramBytes,
) -> Result<Vec<Packet<'a>>, NoMemory>
    requires short { All IsShortPacket packets.items }
    requires decided { DecidesRun packets.items classes.now }
    ensures whole { IfOk result (λ whole. Whole packets.entry.items whole.items) }
    ensures short { IfOk result (λ whole. All IsShortPacket whole.items) }
{
    complete_set_is_whole();
    let datagrams = lay_out(alloc, packets.as_slice(), classes)?;
    let mut packets = packets;
    put_all(packets.as_mut_slice(), classes, datagrams, keeper);
    Ok(packets)
}

/// Holds fragments, and puts the datagrams of these classes in place of those that become them.
fn put_all<'a>(
    packets: &mut [Packet<'a>],
    classes: &[ClassSets],
    datagrams: Datagrams,
    keeper: &'a mut DatagramBytes,
)
    requires short { All IsShortPacket packets.old }
    requires places { All (HasPlacesBelow (length packets.old)) classes.now }
    requires here { All (λ d. d.place < length packets.old) (laid_out datagrams) }
    ensures { PutsAll (all_sets classes.now) (laid_out datagrams) packets.old packets.new }
{
    hold_bad(packets);
    hold_classes(packets, classes);
    datagrams.put_into(keeper, packets);
}

/// The datagrams of all whole sets.
fn lay_out(
    alloc: Global,
    packets: &[Packet<'_>],
    classes: &[ClassSets],
) -> Result<Datagrams, NoMemory>
    requires { All (CanLayOut packets.now) classes.now }
    ensures { IfOk result (λ datagrams. LaysOut packets.now (all_sets classes.now) (laid_out datagrams)) }
{
    let mut datagrams = Datagrams::new(alloc);
    for class in classes {
        lay_out_class(&mut datagrams, packets, class)?;
    }
    Ok(datagrams)
}

/// Lays out the datagrams of a class's whole sets.
fn lay_out_class(
    datagrams: &mut Datagrams,
    packets: &[Packet<'_>],
    class: &ClassSets,
) -> Result<(), NoMemory>
    requires { CanLayOut packets.now class.now }
    ensures { IfOk result (λ _. AddsDatagrams packets.now (class_sets class.now) (laid_out datagrams.old) (laid_out datagrams.new)) }
{
    for set in &class.sets {
        lay_out_set(datagrams, packets, class.arrived.as_slice(), set)?;
    }
    Ok(())
}

/// Lays out the datagram of a set, if it is whole.
#[tactic(auto, using(crate::proofs::LayLemmas::adds_one))]
fn lay_out_set(
    datagrams: &mut Datagrams,
    packets: &[Packet<'_>],
    arrived: &[Arrived],
    set: &SetAt,
) -> Result<(), NoMemory>
    requires place { StandsIn (length arrived.now) set.now }
    requires stand { All (StandsAmong packets.now) arrived.now }
    requires whole { WholeIfComplete (set_at arrived.now set.now) }
    ensures { IfOk result (λ _. AddsDatagrams packets.now (set_at arrived.now set.now ∷ []) (laid_out datagrams.old) (laid_out datagrams.new)) }
{
    if matches!(set.ending, Ending::Complete) {
        datagrams.add(packets, &arrived[set.first..set.behind])?;
    }
    Ok(())
}

/// Holds the fragments that are pieces of no datagram.
fn hold_bad(packets: &mut [Packet<'_>])
    requires { All IsShortPacket packets.old }
    ensures { HoldsBad packets.old packets.new }
{
    for place in 0..packets.len() {
        hold_if_bad(&mut packets[place]);
    }
}

/// Holds the packet if it is a fragment that is a piece of no datagram.
#[tactic(auto, using(crate::proofs::BadLemmas::held_if_bad))]
fn hold_if_bad(packet: &mut Packet<'_>)
    requires { IsShortPacket packet.old }
    ensures { (seen : SeenType) → SeenAs packet.old seen → HeldIfBad packet.old packet.new seen }
{
    one_seeing();
    match piece_of(packet) {
        Seen::Bad => packet.held = Some(FragWhy::Bad),
        Seen::NoFragment => {}
        Seen::Piece(_) => {}
    }
}

/// Holds the pieces of all sets. That of a datagram is given on once it is put in its place.
fn hold_classes(packets: &mut [Packet<'_>], classes: &[ClassSets])
    requires { All (HasPlacesBelow (length packets.old)) classes.now }
    ensures { packets.new ≡ with_sets_held (all_sets classes.now) packets.old }
{
    for class in classes {
        hold_sets(packets, class);
    }
}

/// Holds the pieces of a class's sets.
fn hold_sets(packets: &mut [Packet<'_>], class: &ClassSets)
    requires { HasPlacesBelow (length packets.old) class.now }
    ensures { packets.new ≡ with_sets_held (class_sets class.now) packets.old }
{
    for set in &class.sets {
        hold_pieces(
            packets,
            &class.arrived[set.first..set.behind],
            why_held(set.ending),
        );
    }
}

/// Holds these pieces.
fn hold_pieces(packets: &mut [Packet<'_>], pieces: &[Arrived], why: FragWhy)
    requires { All (λ a. a.place < length packets.old) pieces.now }
    ensures { packets.new ≡ with_held why pieces.now packets.old }
{
    for arrived in pieces {
        packets[arrived.place].held = Some(why);
    }
}

/// Why the pieces of a set are held that ended so.
fn why_held(ending: Ending) -> FragWhy
    ensures { result ≡ why_held ending }
{
    match ending {
        Ending::Unfinished | Ending::Complete => FragWhy::Held,
        Ending::Refused => FragWhy::Overlap,
    }
}
