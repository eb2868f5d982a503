// The pieces among packets, offered by workers at one time, each from a pass of its own.
ghost use Rattle.std.specs.Prelude.{◌≡◌, ◌≤◌, ◌<◌, ◌+◌, [], All, OnOk, length, slice_index_or, slice_range};
ghost use Rattle.std.specs.Thread.{IsSync};
ghost use Rattle.npf_reass.specs.Passes.{IsReassPass, sight};
ghost use Rattle.npf_reass_run.specs.Offer.{HasOffered, OffersPacket, own_pieces};
ghost use Rattle.npf_traffic.specs.Packet.{IsShortPacket};
ghost use Rattle.npf_traffic.specs.declared.packet.Packet.{Packet};

use crate::scan::Scan;
use npf_pieces::Seen;
use npf_reass::{Reass, ReassPass};
use npf_types::NoMemory;
use std::sync::Wait;
use std::thread::{Threads, join};

/// Offers the pieces among the packets up to this place, by so many workers. Each has a share of
/// them: the passes of the others are split off this one, and joined into it.
pub(crate) fn offer_all<R: Threads + Wait + Sync, S: Scan>(
    rt: &R,
    reass: &Reass,
    pass: ReassPass,
    scan: &S,
    behind: usize,
    workers: u32,
) -> (ReassPass, Result<(), NoMemory>)
    requires own { IsReassPass reass.now pass }
    requires places { (sight pass).places ≡ workers }
    requires some { 1 ≤ workers }
    requires none { own_pieces (sight pass) ≡ [] }
    requires short { All IsShortPacket (S.packets scan.now) }
    requires within { behind ≤ length (S.packets scan.now) }
    ensures own { IsReassPass reass.now result.0 }
    ensures places { (sight result.0).places ≡ workers }
    ensures offers { OnOk result.1 (HasOffered 0 (slice_range (S.packets scan.now) 0 behind)
        (sight result.0)) }
{
    if workers == 1 {
        return offer_share(rt, reass, pass, scan, 0, behind);
    }
    let mid = behind - behind / workers as usize;
    let mut pass = pass;
    let other = new_pass(reass, &mut pass);
    let ((mut pass, offered), (other, others_offered)) = join(
        rt,
        move || -> (ReassPass, Result<(), NoMemory>)
            requires { IsSync R.row × IsReassPass reass.now pass
                × ((sight pass).places + 1 ≡ workers) × (2 ≤ workers)
                × (own_pieces (sight pass) ≡ []) × All IsShortPacket (S.packets scan.now)
                × (mid ≤ length (S.packets scan.now)) }
            ensures { IsReassPass reass.entry.now result.0 × ((sight result.0).places + 1 ≡ workers)
                × OnOk result.1 (HasOffered 0 (slice_range (S.packets scan.entry.now) 0 mid)
                (sight result.0)) }
        { offer_all(rt, reass, pass, scan, mid, workers - 1) },
        move || -> (ReassPass, Result<(), NoMemory>)
            requires { IsReassPass reass.now other × ((sight other).places ≡ 1)
                × (own_pieces (sight other) ≡ []) × All IsShortPacket (S.packets scan.now)
                × (mid ≤ behind) × (behind ≤ length (S.packets scan.now)) }
            ensures { IsReassPass reass.entry.now result.0 × ((sight result.0).places ≡ 1)
                × OnOk result.1 (HasOffered mid
                (slice_range (S.packets scan.entry.now) mid behind) (sight result.0)) }
        { offer_share(rt, reass, other, scan, mid, behind) },
    );
    reass.join(&mut pass, other);
    (pass, offered.and(others_offered))
}

/// A new pass, where nothing was offered yet.
fn new_pass(reass: &Reass, pass: &mut ReassPass) -> ReassPass
    requires own { IsReassPass reass.now pass.old }
    requires places { 2 ≤ (sight pass.old).places }
    requires none { own_pieces (sight pass.old) ≡ [] }
    ensures own { IsReassPass reass.now pass.new }
    ensures given { IsReassPass reass.now result }
    ensures places { (sight pass.new).places + 1 ≡ (sight pass.old).places }
    ensures one { (sight result).places ≡ 1 }
    ensures none { own_pieces (sight pass.new) ≡ [] }
    ensures empty { own_pieces (sight result) ≡ [] }
{
    reass.split(pass)
}

/// Offers the pieces among the packets from this place up to another.
#[tactic(auto, using(crate::proofs::OfferLemmas::in_order))]
fn offer_share<S: Scan>(
    rt: &impl Wait,
    reass: &Reass,
    pass: ReassPass,
    scan: &S,
    first: usize,
    behind: usize,
) -> (ReassPass, Result<(), NoMemory>)
    requires own { IsReassPass reass.now pass }
    requires none { own_pieces (sight pass) ≡ [] }
    requires short { All IsShortPacket (S.packets scan.now) }
    requires order { first ≤ behind }
    requires within { behind ≤ length (S.packets scan.now) }
    ensures own { IsReassPass reass.now result.0 }
    ensures places { (sight result.0).places ≡ (sight pass).places }
    ensures offers { OnOk result.1 (HasOffered first
        (slice_range (S.packets scan.now) first behind) (sight result.0)) }
{
    let mut pass = pass;
    for place in first..behind {
        if offer_packet(rt, reass, &mut pass, scan, place).is_err() {
            return (pass, Err(NoMemory));
        }
    }
    (pass, Ok(()))
}

/// Offers the piece that the packet of this place is, if it is one.
fn offer_packet<S: Scan>(
    rt: &impl Wait,
    reass: &Reass,
    pass: &mut ReassPass,
    scan: &S,
    place: usize,
) -> Result<(), NoMemory>
    requires own { IsReassPass reass.now pass.old }
    requires short { All IsShortPacket (S.packets scan.now) }
    requires here { place < length (S.packets scan.now) }
    ensures own { IsReassPass reass.now pass.new }
    ensures places { (sight pass.new).places ≡ (sight pass.old).places }
    ensures offers { (d : Packet) → OnOk result (OffersPacket place
        (slice_index_or (S.packets scan.now) place d) (sight pass.old) (sight pass.new)) }
{
    match scan.seen(place) {
        Seen::Piece(piece) => reass.offer(rt, pass, place as u64, piece),
        Seen::NoFragment | Seen::Bad => Ok(()),
    }
}
