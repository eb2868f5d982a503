// Two passes on threads of their own: nodes are grown over a leaf of one by the other, while the first gives its keys up.
ghost use Rattle.npf_cells.specs.Cells.{IsPassIn};
ghost use Rattle.npf_trie_tests.specs.Hands.{RestsEmptyHanded, IsEmptyHanded, HasFreeHands};

use crate::answers::{put, same};
use crate::building::{abandon, build, collect};
use crate::by_protocol::ByProtocol;
use crate::holders::find;
use npf_cells::{CellPass, Cells};
use npf_epoch::{enter, leave};
use npf_flow::FlowLaw;
use npf_pool_beginning::begin;
use npf_types::Key;
use std::alloc::Global;
use std::sync::Wait;
use std::sync::atomic::{AtomicU64, Ordering};
use std::test::Fail;
use std::thread::{Threads, join, yield_now};

const ROUNDS: u32 = 1000;

const SLOTS: u32 = 64;

// A round's two forward keys need 68 nodes of their own and its two backward ones one, and those of all rounds fewer than 1000 others.
const NODES: u32 = ROUNDS * (68 + 1) + 1000;

/// Who builds a connection at the beginning of a round, and gives it up then; or builds one then, beside that.
#[derive(Clone, Copy)]
enum Part {
    Holder,
    Grower,
}

// UDP from the port of the round, of 10.0.0.1, to port 53 of the part's own address. Keys of two rounds part at level 26 or above it, and
// those of one round at level 94.
fn forward_key(round: u32, part: Part) -> Key {
    let ports = 0x0411_0001_1000_0035 | u64::from(round) << 16;
    Key([ports, 0, 0x0a00_0001, 0, 0x0808_0800 | number(part)])
}

// From port 53 to the port of the round. Keys of two rounds part at level 30 or above it, and those of one round at level 31.
fn backward_key(round: u32, part: Part) -> Key {
    let ports = 0x0411_0001_0035_1000 | u64::from(round);
    Key([ports, number(part) << 60, 0x0808_0808, 0, 0x0a00_0001])
}

fn number(part: Part) -> u64 {
    match part {
        Part::Holder => 0,
        Part::Grower => 1,
    }
}

// How many steps are done where the part's round begins: a round has two, the holder's connection is built and the grower's is given up.
fn steps_before(part: Part, round: u32) -> u64 {
    match part {
        Part::Holder => 2 * u64::from(round),
        Part::Grower => 2 * u64::from(round) + 1,
    }
}

// Waits until so many steps of the rounds are done. Who waits is in no stay, since one hold may wait for the stays of others.
fn wait_for(rt: &impl Wait, done: &AtomicU64, steps: u64) {
    for _ in rt.forever() {
        if done.load(Ordering::SeqCst) >= steps {
            return;
        }
        yield_now();
    }
    unreachable!()
}

// Lets the other pass go ahead, in some rounds by more and in some by less.
fn delay(done: &AtomicU64, round: u32) {
    for _ in 0..round % 64 * 1024 {
        done.load(Ordering::SeqCst);
    }
}

// Builds a connection that holds the part's keys of the round, and gives it up. Answers whether it held both.
fn live(
    rt: &impl Wait,
    cells: &Cells<FlowLaw, ByProtocol>,
    pass: &mut CellPass<FlowLaw>,
    done: &AtomicU64,
    part: Part,
    round: u32,
) -> bool
    requires own { IsPassIn cells.now pass.old }
    requires empty { IsEmptyHanded pass.old.seat.me.0 }
    requires hands { HasFreeHands pass.old.seat.me.0 }
    ensures own { IsPassIn cells.now pass.new }
    ensures empty { IsEmptyHanded pass.new.seat.me.0 }
    ensures hands { HasFreeHands pass.new.seat.me.0 }
{
    let forward = forward_key(round, part);
    let built = build(rt, cells, pass, forward, backward_key(round, part));
    if let Part::Holder = part {
        done.fetch_add(1, Ordering::SeqCst);
        delay(done, round);
    }
    match built {
        Some(id) => {
            abandon(rt, cells, pass, id);
            true
        }
        None => false,
    }
}

// The part's rounds, each in a stay of its own, and a collect after each. Answers in how many the connection held its keys.
fn rounds(
    rt: &impl Wait,
    cells: &Cells<FlowLaw, ByProtocol>,
    pass: CellPass<FlowLaw>,
    done: &AtomicU64,
    part: Part,
) -> u32
    requires own { IsPassIn cells.now pass }
    requires rests { RestsEmptyHanded pass.seat.me.0 }
    requires hands { HasFreeHands pass.seat.me.0 }
{
    let mut pass = pass;
    let mut held = 0u32;
    for round in 0..ROUNDS {
        wait_for(rt, done, steps_before(part, round));
        enter(cells, &mut pass);
        if live(rt, cells, &mut pass, done, part, round) {
            held = held.saturating_add(1);
        }
        leave(cells, &mut pass);
        collect(cells, &mut pass);
        if let Part::Grower = part {
            done.fetch_add(1, Ordering::SeqCst);
        }
    }
    held
}

fn rounds_beside<R: Threads + Wait + Sync>(
    rt: &R,
    cells: &Cells<FlowLaw, ByProtocol>,
    pass: CellPass<FlowLaw>,
    other: CellPass<FlowLaw>,
    done: &AtomicU64,
) -> (u32, u32)
    requires own { IsPassIn cells.now pass }
    requires rests { RestsEmptyHanded pass.seat.me.0 }
    requires hands { HasFreeHands pass.seat.me.0 }
    requires other_own { IsPassIn cells.now other }
    requires other_rests { RestsEmptyHanded other.seat.me.0 }
    requires other_hands { HasFreeHands other.seat.me.0 }
{
    join(
        rt,
        move ||
            requires { IsPassIn cells.now pass × RestsEmptyHanded pass.seat.me.0 × HasFreeHands pass.seat.me.0 }
        { rounds(rt, cells, pass, done, Part::Holder) },
        move ||
            requires { IsPassIn cells.now other × RestsEmptyHanded other.seat.me.0 × HasFreeHands other.seat.me.0 }
        { rounds(rt, cells, other, done, Part::Grower) },
    )
}

// Whether one of the part's keys of the round has a holder.
fn is_held(
    cells: &Cells<FlowLaw, ByProtocol>,
    pass: &mut CellPass<FlowLaw>,
    round: u32,
    part: Part,
) -> bool
    requires own { IsPassIn cells.now pass.old }
    requires empty { IsEmptyHanded pass.old.seat.me.0 }
    ensures own { IsPassIn cells.now pass.new }
    ensures empty { IsEmptyHanded pass.new.seat.me.0 }
{
    let forward = find(cells, pass, forward_key(round, part));
    let backward = find(cells, pass, backward_key(round, part));
    forward.is_some() || backward.is_some()
}

// How many rounds left a key with a holder.
fn held_still(cells: &Cells<FlowLaw, ByProtocol>, pass: &mut CellPass<FlowLaw>) -> u32
    requires own { IsPassIn cells.now pass.old }
    requires empty { IsEmptyHanded pass.old.seat.me.0 }
    ensures own { IsPassIn cells.now pass.new }
    ensures empty { IsEmptyHanded pass.new.seat.me.0 }
{
    let mut held = 0u32;
    for round in 0..ROUNDS {
        let by_holder = is_held(cells, pass, round, Part::Holder);
        let by_grower = is_held(cells, pass, round, Part::Grower);
        if by_holder || by_grower {
            held = held.saturating_add(1);
        }
    }
    held
}

// Begins a connection in each slot. Answers how many were begun, and how many incarnations there were in all.
fn begin_all(
    rt: &impl Wait,
    cells: &Cells<FlowLaw, ByProtocol>,
    pass: &mut CellPass<FlowLaw>,
) -> (u32, u64)
    requires own { IsPassIn cells.now pass.old }
    requires empty { IsEmptyHanded pass.old.seat.me.0 }
    ensures own { IsPassIn cells.now pass.new }
    ensures empty { IsEmptyHanded pass.new.seat.me.0 }
{
    let mut begun = 0u32;
    let mut incarnations = 0u64;
    for _ in 0..SLOTS {
        if let Some(id) = begin(rt, cells, pass) {
            begun = begun.saturating_add(1);
            incarnations = incarnations.saturating_add(id.inc);
        }
    }
    (begun, incarnations)
}

// In how many rounds each pass held its keys; how many of them left a key held; and how many slots are free again, with the incarnations in them.
fn tell_rounds<R: Threads + Wait + Sync>(
    rt: &R,
    alloc: Global,
    told: &mut String,
) -> Result<(), Fail> {
    let done = AtomicU64::new(0);
    let (cells, mut pass) = Cells::<FlowLaw, ByProtocol>::new(alloc, SLOTS, NODES)?;
    let mut last = cells.split(&mut pass);
    let other = cells.split(&mut pass);
    let held = rounds_beside(rt, &cells, pass, other, &done);
    for _ in 0..3u32 {
        collect(&cells, &mut last);
    }
    enter(&cells, &mut last);
    put(told, &held)?;
    put(told, &held_still(&cells, &mut last))?;
    put(told, &begin_all(rt, &cells, &mut last))
}

#[test]
fn keys_are_given_up_beside_holds(rt: HostRuntime) -> Result<(), Fail> {
    let mut told = String::new(rt.alloc());
    tell_rounds(&rt, rt.alloc(), &mut told)?;
    // 2000 connections were begun and given up, and then one in each of 64 slots.
    same(
        &rt,
        told.as_str(),
        "(1000, 1000)
0
(64, 2064)
",
    );
    Ok(())
}
