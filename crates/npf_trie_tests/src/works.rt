// What a pass does many times, and what is told of it to the passes beside it.
ghost use Rattle.npf_cells.specs.Cells.{IsPassIn};
ghost use Rattle.npf_trie_tests.specs.Hands.{IsEmptyHanded};

use crate::by_protocol::ByProtocol;
use crate::holders::{find, first_in, holder_in, open};
use crate::keys::{Draws, key_of};
use npf_cells::{CellPass, Cells};
use npf_core::{ConnId, Found, Held};
use npf_flow::FlowLaw;
use npf_pool_beginning::begin;
use npf_types::{Key, Way};
use std::alloc::{AllocError, Global};
use std::sync::Wait;
use std::sync::atomic::{AtomicU64, Ordering};

/// What is done with each number.
#[derive(Clone, Copy)]
pub(crate) enum Work {
    /// Takes a slot, which nobody took before, if one is left.
    TakeSlot,
    /// Holds this key of the round of that number, if there are nodes enough.
    HoldInRound(u32),
    /// Finds the holder of the key of that number, or holds it.
    HoldRest,
    /// Draws a key, and holds it where the number is even or odd, as this one.
    HoldHalf(u32),
    /// Draws a key, and looks for its holder, if there is one.
    Look,
    /// Draws a key, which has a holder.
    Find,
    /// Draws a key, and holds it for the first connection in the slot of that number.
    HoldInSlot,
    /// Draws a key, which that connection holds.
    FindInSlot,
    /// Draws a key, which has no holder if its number isn't below this one.
    MissBehind(u32),
}

/// So many slots or keys, of which nothing is told yet.
pub(crate) fn untold(alloc: Global, count: u32) -> Result<Vec<AtomicU64>, AllocError> {
    let mut told = Vec::new(alloc);
    for _ in 0..count {
        told.push(AtomicU64::new(0))?;
    }
    Ok(told)
}

/// Tells that the slot was taken. Answers whether it was not told before, and this is the first connection in it.
fn tell_slot(told: &[AtomicU64], id: ConnId) -> bool {
    match told.get(id.slot as usize) {
        Some(slot) => id == first_in(id.slot) && slot.swap(1, Ordering::SeqCst) == 0,
        None => false,
    }
}

/// Tells the holder of a key. Answers whether it is the first connection in its slot, and the holder that was told before, if one was.
fn tell_holder(told: &[AtomicU64], key: u32, found: Found) -> bool {
    let slot = found.id.slot;
    let now = u64::from(slot) + 1;
    match told.get(key as usize) {
        Some(told) => {
            let before = told.swap(now, Ordering::SeqCst);
            found == holder_in(slot) && (before == 0 || before == now)
        }
        None => false,
    }
}

/// Tells who holds the key with this number, after a connection asked for it. None where no slot was left, or another holder was told.
fn tell_held(told: &[AtomicU64], key: u32, asked: Option<(ConnId, Held)>) -> Option<Held> {
    let (id, held) = asked?;
    let way = Way::Forward;
    let agreed = match held {
        Held::Done => tell_holder(told, key, Found { id, way }),
        Held::Taken(found) => tell_holder(told, key, found),
        Held::NoNode => true,
    };
    agreed.then_some(held)
}

fn tell_found(told: &[AtomicU64], key: u32, found: Option<Found>) -> bool {
    match found {
        Some(found) => tell_holder(told, key, found),
        None => true,
    }
}

/// Does the work for a number. Answers whether all was as the work says, and as was told.
fn does(
    rt: &impl Wait,
    cells: &Cells<FlowLaw, ByProtocol>,
    pass: &mut CellPass<FlowLaw>,
    told: &[AtomicU64],
    key: Key,
    work: Work,
    number: u32,
) -> bool
    requires own { IsPassIn cells.now pass.old }
    requires hands { IsEmptyHanded pass.old.seat.me.0 }
    ensures own { IsPassIn cells.now pass.new }
    ensures hands { IsEmptyHanded pass.new.seat.me.0 }
{
    match work {
        Work::TakeSlot => match begin(rt, cells, pass) {
            Some(id) => tell_slot(told, id),
            None => true,
        },
        Work::HoldInRound(place) => {
            let asked = open(rt, cells, pass, key_of(number, place));
            tell_held(told, number % 16 * 16 + place % 16, asked).is_some()
        }
        Work::HoldRest => match find(cells, pass, key_of(number / 16, number)) {
            Some(found) => tell_holder(told, number, found),
            None => {
                let asked = open(rt, cells, pass, key_of(number / 16, number));
                tell_held(told, number, asked) == Some(Held::Done)
            }
        },
        Work::HoldHalf(half) => {
            number % 2 != half
                || tell_held(told, number, open(rt, cells, pass, key)) == Some(Held::Done)
        }
        Work::Look => tell_found(told, number, find(cells, pass, key)),
        Work::Find => match find(cells, pass, key) {
            Some(found) => tell_holder(told, number, found),
            None => false,
        },
        Work::HoldInSlot => { open(rt, cells, pass, key) == Some((first_in(number), Held::Done)) }
        Work::FindInSlot => find(cells, pass, key) == Some(holder_in(number)),
        Work::MissBehind(count) => number < count || find(cells, pass, key).is_none(),
    }
}

/// Does the work for the numbers below this one. Answers the first for which it wasn't as it is to be, or this one.
pub(crate) fn each(
    rt: &impl Wait,
    cells: &Cells<FlowLaw, ByProtocol>,
    pass: &mut CellPass<FlowLaw>,
    told: &[AtomicU64],
    work: Work,
    count: u32,
) -> u32
    requires own { IsPassIn cells.now pass.old }
    requires hands { IsEmptyHanded pass.old.seat.me.0 }
    ensures own { IsPassIn cells.now pass.new }
    ensures hands { IsEmptyHanded pass.new.seat.me.0 }
{
    let mut keys = Draws::new();
    for number in 0..count {
        if !does(rt, cells, pass, told, keys.key(), work, number) {
            return number;
        }
    }
    count
}
