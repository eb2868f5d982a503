// Passes that work beside one another, each in a thread of its own.
ghost use Rattle.std.specs.Prelude.{◌≡◌, ◌<◌, ◌≤◌, length};
ghost use Rattle.std.specs.Thread.{IsSync};
ghost use Rattle.npf_cells.specs.Cells.{IsPassIn};
ghost use Rattle.npf_trie_tests.specs.Hands.{RestsEmptyHanded};

use crate::answers::{put, same};
use crate::by_protocol::ByProtocol;
use crate::keys::{KEYS_OF_ROUNDS, NODES_OF_ROUNDS};
use crate::works::{Work, each, untold};
use npf_cells::{CellPass, Cells};
use npf_epoch::enter;
use npf_flow::FlowLaw;
use npf_pool_beginning::begin;
use std::alloc::Global;
use std::sync::Wait;
use std::sync::atomic::{AtomicU64, Ordering};
use std::test::Fail;
use std::thread::{Threads, join};

/// What is put to many passes.
#[derive(Clone, Copy)]
enum Crew {
    /// Each takes 320 slots: 64 passes ask for 480 more in all than there are.
    OfSlots,
    /// Each holds one key of each of 16 rounds, and is answered NoNode where others have the nodes in hand.
    OfNodes,
    /// The first two hold the keys of the even and of the odd numbers, the others look four times for all.
    OfLooks,
}

const SLOTS: u32 = 20_000;

const KEYS: u32 = 1000;

// How many keys are held, and how many others are looked for, by one pass.
const MANY: u32 = 10_000;

// The work of the pass of this number.
fn work(
    rt: &impl Wait,
    cells: &Cells<FlowLaw, ByProtocol>,
    pass: CellPass<FlowLaw>,
    told: &[AtomicU64],
    crew: Crew,
    number: u32,
) -> bool
    requires own { IsPassIn cells.now pass }
    requires rests { RestsEmptyHanded pass.seat.me.0 }
{
    let mut pass = pass;
    enter(cells, &mut pass);
    let (work, count, rounds) = match crew {
        Crew::OfSlots => (Work::TakeSlot, 320, 1u32),
        Crew::OfNodes => (Work::HoldInRound(number), 16, 1),
        Crew::OfLooks if number < 2 => (Work::HoldHalf(number), KEYS, 1),
        Crew::OfLooks => (Work::Look, KEYS, 4),
    };
    let mut agreed = true;
    for _ in 0..rounds {
        agreed = each(rt, cells, &mut pass, told, work, count) == count && agreed;
    }
    agreed
}

// The work of the passes from this number down to 0, of which all but the last are split off.
fn work_beside<R: Threads + Wait + Sync>(
    rt: &R,
    cells: &Cells<FlowLaw, ByProtocol>,
    pass: CellPass<FlowLaw>,
    told: &[AtomicU64],
    crew: Crew,
    number: u32,
) -> bool
    requires own { IsPassIn cells.now pass }
    requires rests { RestsEmptyHanded pass.seat.me.0 }
    requires places { number < length pass.seat.me.0.seats.readers }
{
    if number == 0 {
        return work(rt, cells, pass, told, crew, 0);
    }
    let mut pass = pass;
    let other = cells.split(&mut pass);
    let (agreed, others_agreed) = join(
        rt,
        move ||
            requires { IsPassIn cells.now other × RestsEmptyHanded other.seat.me.0 }
        { work(rt, cells, other, told, crew, number) },
        move ||
            requires { IsSync R.row × IsPassIn cells.now pass × RestsEmptyHanded pass.seat.me.0 × (0 < number) × (number ≤ length pass.seat.me.0.seats.readers) }
        { work_beside(rt, cells, pass, told, crew, number - 1) },
    );
    agreed && others_agreed
}

// Whether no slot is taken twice by 64 passes, how many are taken, and a connection that is begun behind them.
fn tell_slots<R: Threads + Wait + Sync>(
    rt: &R,
    alloc: Global,
    answers: &mut String,
) -> Result<(), Fail> {
    let told = untold(alloc, SLOTS)?;
    let (cells, mut pass) = Cells::<FlowLaw, ByProtocol>::new(alloc, SLOTS, 16)?;
    let mut last = cells.split(&mut pass);
    let agreed = work_beside(rt, &cells, pass, &told, Crew::OfSlots, 63);
    enter(&cells, &mut last);
    let none = begin(rt, &cells, &mut last);
    let taken = told
        .iter()
        .filter(|slot| slot.load(Ordering::SeqCst) != 0)
        .count();
    put(answers, &(agreed, taken, none))
}

// The nodes that are left after all hands gave back what they took are exactly those that the keys without a holder need. Once more
// each key has the holder that was told of.
fn tell_nodes<R: Threads + Wait + Sync>(
    rt: &R,
    alloc: Global,
    answers: &mut String,
) -> Result<(), Fail> {
    let told = untold(alloc, KEYS_OF_ROUNDS)?;
    let (cells, mut pass) = Cells::<FlowLaw, ByProtocol>::new(alloc, 1280, NODES_OF_ROUNDS)?;
    let mut last = cells.split(&mut pass);
    let agreed = work_beside(rt, &cells, pass, &told, Crew::OfNodes, 63);
    enter(&cells, &mut last);
    let first = each(rt, &cells, &mut last, &told, Work::HoldRest, KEYS_OF_ROUNDS);
    let again = each(rt, &cells, &mut last, &told, Work::HoldRest, KEYS_OF_ROUNDS);
    put(answers, &(agreed, first, again))
}

// Looks beside holds find the holder or nobody, and at last each key's holder is found.
fn tell_looks<R: Threads + Wait + Sync>(
    rt: &R,
    alloc: Global,
    answers: &mut String,
) -> Result<(), Fail> {
    let told = untold(alloc, KEYS)?;
    let (cells, mut pass) = Cells::<FlowLaw, ByProtocol>::new(alloc, KEYS, 1024)?;
    let mut last = cells.split(&mut pass);
    let agreed = work_beside(rt, &cells, pass, &told, Crew::OfLooks, 5);
    enter(&cells, &mut last);
    let found = each(rt, &cells, &mut last, &told, Work::Find, KEYS);
    put(answers, &(agreed, found))
}

// How many keys under FNV-1a one pass holds and finds, and of how many, with as many others, it misses those others.
fn tell_many(rt: &impl Wait, alloc: Global, answers: &mut String) -> Result<(), Fail> {
    let (cells, mut pass) = Cells::<FlowLaw, ByProtocol>::new(alloc, 16_384, 16_384)?;
    enter(&cells, &mut pass);
    let held = each(rt, &cells, &mut pass, &[], Work::HoldInSlot, MANY);
    let found = each(rt, &cells, &mut pass, &[], Work::FindInSlot, MANY);
    let missed = each(rt, &cells, &mut pass, &[], Work::MissBehind(MANY), 2 * MANY);
    put(answers, &(held, found, missed))
}

#[test]
fn passes_agree(rt: HostRuntime) -> Result<(), Fail> {
    let mut answers = String::new(rt.alloc());
    tell_slots(&rt, rt.alloc(), &mut answers)?;
    tell_nodes(&rt, rt.alloc(), &mut answers)?;
    tell_looks(&rt, rt.alloc(), &mut answers)?;
    tell_many(&rt, rt.alloc(), &mut answers)?;
    same(
        &rt,
        answers.as_str(),
        "(true, 20000, None)
(true, 256, 256)
(true, 1000)
(10000, 10000, 20000)
",
    );
    Ok(())
}
