// Nodes that come back: many connections, one after the other, in a table without locks that has
// few nodes. Keys of one hash part at the first half-byte in which they differ, so each round wants
// nodes of its own.
ghost use Rattle.std.specs.Prelude.{◌≡◌, ◌≤◌, ◌<◌, ℕ};
ghost use Rattle.std.specs.Thread.{IsSync};
ghost use Rattle.npf_connections.specs.Stay.{IsOut};
ghost use Rattle.npf_connections_tests.specs.Sum.{sum_law};

use crate::answers::{put, same};
use crate::sum::Sum;
use npf_conndb::Conns;
use npf_connections::Connections;
use npf_connections_fixtures::OneHash;
use npf_core::Held;
use npf_types::{Key, Way};
use std::alloc::Global;
use std::sync::Wait;
use std::sync::atomic::{AtomicU64, Ordering};
use std::test::Fail;
use std::thread::{Threads, join, yield_now};

/// How many threads open connections, and how many look beside them.
const WORKERS: u64 = 4;

const LOOKERS: u64 = 2;

/// The number of the last of the passes: those that look come first, so the first pass of the table
/// is one of them, and takes no node off itself.
const LAST: u64 = 5;

/// The rounds of one thread alone, and those of each of four.
const ROUNDS: u64 = 1000;

const ROUNDS_BESIDE: u64 = 1000;

/// Collections after which all nodes are free again: each takes one of at most 94 levels off, and
/// raises the epoch by two.
const COLLECTIONS: u64 = 200;

/// The lowest half-byte of a word, and the second highest.
const LOWEST: u64 = 1;

const SECOND: u64 = 1 << 56;

// UDP from a port of 10.0.0.1 to a port of 10.0.0.2.
fn key_of(round: u64) -> Key {
    let port = round % 4096 * 16;
    Key([
        0x0411_0001_0000_0000 | port << 16 | port + 1,
        0,
        0x0a00_0001,
        0,
        0x0a00_0002,
    ])
}

// The answer to it.
fn answer_of(round: u64) -> Key {
    let port = round % 4096 * 16;
    Key([
        0x0411_0001_0000_0000 | port + 1 << 16 | port,
        0,
        0x0a00_0002,
        0,
        0x0a00_0001,
    ])
}

// Begins a connection that holds both keys of the round, and abandons it. Answers whether it held
// them, or none where no slot was left.
fn live<R: Wait, C: Connections<Sum>>(
    rt: &R,
    conns: &C,
    pass: &mut C::Pass,
    round: u64,
) -> Option<bool>
    requires out { IsOut sum_law (C.fits conns.now) C.view pass.old }
    requires place { 1 ≤ (C.view pass.old).places }
    ensures out { IsOut sum_law (C.fits conns.now) C.view pass.new }
    ensures places { (C.view pass.new).places ≡ (C.view pass.old).places }
{
    conns.enter(rt, pass);
    let Some(id) = conns.begin(rt, pass, round) else {
        conns.leave(rt, pass);
        return None;
    };
    let there = conns.hold(rt, pass, id, key_of(round), Way::Forward);
    let back = conns.hold(rt, pass, id, answer_of(round), Way::Backward);
    conns.abandon(rt, pass, id);
    conns.leave(rt, pass);
    Some(there == Held::Done && back == Held::Done)
}

// Collects so often.
fn collect_often<C: Connections<Sum>>(rt: &impl Wait, conns: &C, pass: &mut C::Pass, times: u64)
    requires out { IsOut sum_law (C.fits conns.now) C.view pass.old }
    ensures out { IsOut sum_law (C.fits conns.now) C.view pass.new }
    ensures places { (C.view pass.new).places ≡ (C.view pass.old).places }
{
    for _ in 0..times {
        conns.collect(rt, pass);
    }
}

// A connection of the round, once a slot is left, and three collections after it. Answers whether
// it held its keys.
fn live_once<R: Wait, C: Connections<Sum>>(
    rt: &R,
    conns: &C,
    pass: &mut C::Pass,
    round: u64,
) -> bool
    requires out { IsOut sum_law (C.fits conns.now) C.view pass.old }
    requires place { 1 ≤ (C.view pass.old).places }
    ensures out { IsOut sum_law (C.fits conns.now) C.view pass.new }
    ensures places { (C.view pass.new).places ≡ (C.view pass.old).places }
{
    for _ in rt.forever() {
        let held = live(rt, conns, pass, round);
        collect_often(rt, conns, pass, 3);
        if let Some(held) = held {
            return held;
        }
        yield_now();
    }
    unreachable!()
}

// So many rounds, from this one on and then each of which the number is that much higher. Answers
// how many held their keys.
fn live_rounds<R: Wait, C: Connections<Sum>>(
    rt: &R,
    conns: &C,
    pass: &mut C::Pass,
    first: u64,
    apart: u64,
    count: u64,
) -> u64
    requires out { IsOut sum_law (C.fits conns.now) C.view pass.old }
    requires place { 1 ≤ (C.view pass.old).places }
    ensures out { IsOut sum_law (C.fits conns.now) C.view pass.new }
    ensures places { (C.view pass.new).places ≡ (C.view pass.old).places }
{
    let mut held = 0u64;
    for n in 0..count {
        let round = first.saturating_add(n.saturating_mul(apart));
        if live_once(rt, conns, pass, round) {
            held = held.saturating_add(1);
        }
    }
    held
}

// Looks for both keys of the round, in one stay. Answers whether who is found holds the one as its
// key there, and the other as its key back.
fn look_for<R: Wait, C: Connections<Sum>>(rt: &R, conns: &C, pass: &mut C::Pass, round: u64) -> bool
    requires out { IsOut sum_law (C.fits conns.now) C.view pass.old }
    requires place { 1 ≤ (C.view pass.old).places }
    ensures out { IsOut sum_law (C.fits conns.now) C.view pass.new }
    ensures places { (C.view pass.new).places ≡ (C.view pass.old).places }
{
    conns.enter(rt, pass);
    let there = conns.look(rt, pass, round, key_of(round));
    let back = conns.look(rt, pass, round, answer_of(round));
    conns.leave(rt, pass);
    let forward = there.map_or(true, |found| found.way == Way::Forward);
    let backward = back.map_or(true, |found| found.way == Way::Backward);
    forward && backward
}

// Looks for the keys of one round after the other, until all workers are done. Answers how often
// those found weren't the right ones.
fn look_beside<R: Wait, C: Connections<Sum>>(
    rt: &R,
    conns: &C,
    pass: &mut C::Pass,
    done: &AtomicU64,
) -> u64
    requires out { IsOut sum_law (C.fits conns.now) C.view pass.old }
    requires place { 1 ≤ (C.view pass.old).places }
    ensures out { IsOut sum_law (C.fits conns.now) C.view pass.new }
    ensures places { (C.view pass.new).places ≡ (C.view pass.old).places }
{
    let mut wrong = 0u64;
    let mut round = 0u64;
    for _ in rt.forever() {
        if done.load(Ordering::SeqCst) >= WORKERS {
            return wrong;
        }
        if !look_for(rt, conns, pass, round) {
            wrong = wrong.saturating_add(1);
        }
        round = round.wrapping_add(1);
        yield_now();
    }
    unreachable!()
}

// What the pass of this number does: how many rounds held their keys, and how many looks were
// wrong.
fn work<R: Wait, C: Connections<Sum>>(
    rt: &R,
    conns: &C,
    pass: &mut C::Pass,
    done: &AtomicU64,
    number: u64,
) -> (u64, u64)
    requires out { IsOut sum_law (C.fits conns.now) C.view pass.old }
    requires place { 1 ≤ (C.view pass.old).places }
    ensures out { IsOut sum_law (C.fits conns.now) C.view pass.new }
    ensures places { (C.view pass.new).places ≡ (C.view pass.old).places }
{
    if number < LOOKERS {
        return (0, look_beside(rt, conns, pass, done));
    }
    let first = number - LOOKERS;
    let held = live_rounds(rt, conns, pass, first, WORKERS, ROUNDS_BESIDE);
    done.fetch_add(1, Ordering::SeqCst);
    (held, 0)
}

// What the passes from this number down to 0 do beside each other, of which all but the last are
// split off, and joined again.
fn work_beside<R: Threads + Wait + Sync, C: Connections<Sum>>(
    rt: &R,
    conns: &C,
    pass: C::Pass,
    done: &AtomicU64,
    number: u64,
) -> (C::Pass, (u64, u64))
    requires out { IsOut sum_law (C.fits conns.now) C.view pass }
    requires places { number < (C.view pass).places }
    ensures out { IsOut sum_law (C.fits conns.now) C.view result.0 }
    ensures places { (C.view result.0).places ≡ (C.view pass).places }
{
    let mut pass = pass;
    if number == 0 {
        let told = work(rt, conns, &mut pass, done, 0);
        return (pass, told);
    }
    let other = conns.split(rt, &mut pass);
    let ((other, told), (whole, others)) = join(
        rt,
        move ||
            requires { IsOut sum_law (C.fits conns.now) C.view other × (1 ≤ (C.view other).places) }
        {
            let mut pass = other;
            let told = work(rt, conns, &mut pass, done, number);
            (pass, told)
        },
        move || -> (C::Pass, (u64, u64))
            requires { IsSync R.row × IsOut sum_law (C.fits conns.now) C.view pass × (0 < number) × (number ≤ (C.view pass).places) }
            ensures { IsOut sum_law (C.fits conns.entry.now) C.view result.0 × ((C.view result.0).places ≡ (C.view pass).places) }
        { work_beside(rt, conns, pass, done, number - 1) },
    );
    let mut whole = whole;
    conns.join(rt, &mut whole, other);
    let held = told.0.saturating_add(others.0);
    let wrong = told.1.saturating_add(others.1);
    (whole, (held, wrong))
}

// One thread alone: 96 nodes serve a thousand rounds, of which the first alone wants 26.
fn tell_rounds(rt: &impl Wait, alloc: Global, told: &mut String) -> Result<(), Fail> {
    let (conns, mut pass) = Conns::<Sum, OneHash>::new(alloc, 2, 96)?;
    put(told, &live_rounds(rt, &conns, &mut pass, 0, 1, ROUNDS))
}

// Four threads beside two that look. Then all passes but one of those that looked are joined into
// it, and it alone gets back what the others took off: each of the 400 nodes is free again.
fn tell_rounds_beside<R: Threads + Wait + Sync>(
    rt: &R,
    alloc: Global,
    told: &mut String,
) -> Result<(), Fail> {
    let (conns, pass) = Conns::<Sum, OneHash>::new(alloc, 8, 400)?;
    let done = AtomicU64::new(0);
    let (mut pass, answer) = work_beside(rt, &conns, pass, &done, LAST);
    put(told, &answer)?;
    collect_often(rt, &conns, &mut pass, COLLECTIONS);
    put(told, &hold_400_nodes(rt, &conns, &mut pass))
}

// Two keys that part at the last half-byte, below one of their own: all 94 nodes of the table are
// wanted for them.
fn deep_key(phase: u64, place: u64) -> Key {
    Key([phase, 0, 0, 0, place])
}

// A connection that holds two such keys, which part at this half-byte of their last word. Answers
// whether it held them.
fn live_deep<R: Wait, C: Connections<Sum>>(
    rt: &R,
    conns: &C,
    pass: &mut C::Pass,
    phase: u64,
    parting: u64,
) -> bool
    requires out { IsOut sum_law (C.fits conns.now) C.view pass.old }
    requires place { 1 ≤ (C.view pass.old).places }
    ensures out { IsOut sum_law (C.fits conns.now) C.view pass.new }
    ensures places { (C.view pass.new).places ≡ (C.view pass.old).places }
{
    conns.enter(rt, pass);
    let Some(id) = conns.begin(rt, pass, phase) else {
        conns.leave(rt, pass);
        return false;
    };
    let there = conns.hold(rt, pass, id, deep_key(phase, 0), Way::Forward);
    let back = conns.hold(rt, pass, id, deep_key(phase, parting), Way::Backward);
    let held = there == Held::Done && back == Held::Done;
    if held {
        conns.start(rt, pass, id, phase, 100);
    } else {
        conns.abandon(rt, pass, id);
    }
    conns.leave(rt, pass);
    held
}

// How many of six connections hold two keys each that want 400 nodes in all. The keys of the first
// part at level 94 of their path: they want a node for each level below the first, 94. Its first
// word and those of the next four differ in their lowest half-byte, of level 30, so each of these
// wants the 64 nodes from level 31 to 94. Those of the last part at the second half-byte of their
// last word, of level 80: they want the 50 from level 31 to 80.
fn hold_400_nodes<R: Wait, C: Connections<Sum>>(rt: &R, conns: &C, pass: &mut C::Pass) -> u64
    requires out { IsOut sum_law (C.fits conns.now) C.view pass.old }
    requires place { 1 ≤ (C.view pass.old).places }
{
    let mut held = 0u64;
    for phase in 0..6u64 {
        let parting = if phase < 5 { LOWEST } else { SECOND };
        if live_deep(rt, conns, pass, phase, parting) {
            held = held.saturating_add(1);
        }
    }
    held
}

// Ten phases, in each of which a connection is opened that wants every node of the table, and
// expires. Each collection takes a level off, so after 95 all nodes are free again.
fn live_phases<R: Wait, C: Connections<Sum>>(
    rt: &R,
    conns: &C,
    pass: &mut C::Pass,
    told: &mut String,
) -> Result<(), Fail>
    requires out { IsOut sum_law (C.fits conns.now) C.view pass.old }
    requires place { 1 ≤ (C.view pass.old).places }
{
    for phase in 0..10u64 {
        let held = live_deep(rt, conns, pass, phase, LOWEST);
        let expired = conns.expire(rt, pass, 100);
        collect_often(rt, conns, pass, 95);
        put(told, &(held, expired))?;
    }
    Ok(())
}

// The phases, in a table of 94 nodes.
fn tell_phases(rt: &impl Wait, alloc: Global, told: &mut String) -> Result<(), Fail> {
    let (conns, mut pass) = Conns::<Sum, OneHash>::new(alloc, 2, 94)?;
    live_phases(rt, &conns, &mut pass, told)
}

#[test]
fn nodes_come_back_to_one_thread(rt: HostRuntime) -> Result<(), Fail> {
    let mut told = String::new(rt.alloc());
    tell_rounds(&rt, rt.alloc(), &mut told)?;
    same(&rt, told.as_str(), "1000\n");
    Ok(())
}

#[test]
fn nodes_come_back_to_threads(rt: HostRuntime) -> Result<(), Fail> {
    let mut told = String::new(rt.alloc());
    tell_rounds_beside(&rt, rt.alloc(), &mut told)?;
    same(&rt, told.as_str(), "(4000, 0)\n6\n");
    Ok(())
}

#[test]
fn each_node_comes_back(rt: HostRuntime) -> Result<(), Fail> {
    let mut told = String::new(rt.alloc());
    tell_phases(&rt, rt.alloc(), &mut told)?;
    same(
        &rt,
        told.as_str(),
        "(true, 1)
(true, 1)
(true, 1)
(true, 1)
(true, 1)
(true, 1)
(true, 1)
(true, 1)
(true, 1)
(true, 1)
",
    );
    Ok(())
}
