// A node that comes back to the one pass that takes it off, in a table without locks, while another
// pass gets the lock of the node in which it hung, again and again. The table has but this one node
// to give, so if it isn't got back no connection holds its keys.
ghost use Rattle.std.specs.Prelude.{◌≡◌, ◌≤◌};
ghost use Rattle.npf_connections.specs.Stay.{IsOut};
ghost use Rattle.npf_connections_tests.specs.Sum.{sum_law};

use crate::answers::{put, same};
use crate::sum::Sum;
use npf_conndb::Conns;
use npf_connections::Connections;
use npf_connections_fixtures::OneHash;
use npf_core::Held;
use npf_types::{Key, Way};
use std::alloc::Global;
use std::sync::Wait;
use std::sync::atomic::{AtomicU64, Ordering};
use std::test::Fail;
use std::thread::{Threads, join, yield_now};

/// How many connections hold their keys, one after the other.
const ROUNDS: u64 = 2000;

/// In each stay of the other pass the epoch can be raised, so two of them are enough for the node to
/// come back; but the lock may be taken then. Behind so many a connection is given up.
const STAYS: u64 = 40;

// Keys of one hash: those whose highest half-bytes differ part at level 15, and those whose second
// ones alone differ, at level 16.
fn key_of(highest: u64, second: u64) -> Key {
    Key([highest << 60 | second << 56, 0, 0, 0, 0])
}

// A connection that holds the two keys, in a stay. Answers whether it held them; then it is started
// if it is to last, and else abandoned.
fn hold_two<R: Wait, C: Connections<Sum>>(
    rt: &R,
    conns: &C,
    pass: &mut C::Pass,
    keys: (Key, Key),
    lasts: bool,
) -> bool
    requires out { IsOut sum_law (C.fits conns.now) C.view pass.old }
    requires place { 1 ≤ (C.view pass.old).places }
    ensures out { IsOut sum_law (C.fits conns.now) C.view pass.new }
    ensures places { (C.view pass.new).places ≡ (C.view pass.old).places }
{
    conns.enter(rt, pass);
    let Some(id) = conns.begin(rt, pass, 1) else {
        conns.leave(rt, pass);
        return false;
    };
    let there = conns.hold(rt, pass, id, keys.0, Way::Forward);
    let back = conns.hold(rt, pass, id, keys.1, Way::Backward);
    if lasts {
        conns.start(rt, pass, id, 1, 100);
    } else {
        conns.abandon(rt, pass, id);
    }
    conns.leave(rt, pass);
    there == Held::Done && back == Held::Done
}

// Whether a connection of the round holds its keys, which part below a place of the node of level 15
// where those of the round before don't: it wants the one node that isn't in use.
fn hold_once<R: Wait, C: Connections<Sum>>(
    rt: &R,
    conns: &C,
    pass: &mut C::Pass,
    stays: &AtomicU64,
    round: u64,
) -> bool
    requires out { IsOut sum_law (C.fits conns.now) C.view pass.old }
    requires place { 1 ≤ (C.view pass.old).places }
    ensures out { IsOut sum_law (C.fits conns.now) C.view pass.new }
    ensures places { (C.view pass.new).places ≡ (C.view pass.old).places }
{
    let highest = 3 + round % 2;
    let mut seen = 0u64;
    let mut tries = 0u64;
    for _ in rt.forever() {
        let keys = (key_of(highest, 0), key_of(highest, 1));
        if hold_two(rt, conns, pass, keys, false) {
            return true;
        }
        conns.collect(rt, pass);
        let now = stays.load(Ordering::SeqCst);
        if now != seen {
            seen = now;
            tries = tries.saturating_add(1);
        }
        if tries >= STAYS {
            return false;
        }
        yield_now();
    }
    unreachable!()
}

// How many rounds hold their keys. The other pass is told when they are over.
fn hold_rounds<R: Wait, C: Connections<Sum>>(
    rt: &R,
    conns: &C,
    pass: &mut C::Pass,
    stays: &AtomicU64,
    done: &AtomicU64,
) -> u64
    requires out { IsOut sum_law (C.fits conns.now) C.view pass.old }
    requires place { 1 ≤ (C.view pass.old).places }
    ensures out { IsOut sum_law (C.fits conns.now) C.view pass.new }
    ensures places { (C.view pass.new).places ≡ (C.view pass.old).places }
{
    let mut held = 0u64;
    for round in 0..ROUNDS {
        if hold_once(rt, conns, pass, stays, round) {
            held = held.saturating_add(1);
        }
    }
    done.store(1, Ordering::SeqCst);
    held
}

// Puts two keys in other places of that node, and takes them out again, until the rounds are over.
// Each time it gets the node's lock, and takes no node off.
fn lock_often<R: Wait, C: Connections<Sum>>(
    rt: &R,
    conns: &C,
    pass: &mut C::Pass,
    stays: &AtomicU64,
    done: &AtomicU64,
)
    requires out { IsOut sum_law (C.fits conns.now) C.view pass.old }
    requires place { 1 ≤ (C.view pass.old).places }
    ensures out { IsOut sum_law (C.fits conns.now) C.view pass.new }
    ensures places { (C.view pass.new).places ≡ (C.view pass.old).places }
{
    for _ in rt.forever() {
        if done.load(Ordering::SeqCst) != 0 {
            return;
        }
        hold_two(rt, conns, pass, (key_of(2, 0), key_of(5, 0)), false);
        stays.fetch_add(1, Ordering::SeqCst);
        conns.collect(rt, pass);
    }
    unreachable!()
}

// Both at once.
fn hold_beside<R: Threads + Wait + Sync, C: Connections<Sum>>(
    rt: &R,
    conns: &C,
    pass: C::Pass,
    stays: &AtomicU64,
    done: &AtomicU64,
) -> u64
    requires out { IsOut sum_law (C.fits conns.now) C.view pass }
    requires places { 2 ≤ (C.view pass).places }
{
    let mut pass = pass;
    let other = conns.split(rt, &mut pass);
    let (held, _) = join(
        rt,
        move ||
            requires { IsOut sum_law (C.fits conns.now) C.view pass × (1 ≤ (C.view pass).places) }
        {
            let mut pass = pass;
            hold_rounds(rt, conns, &mut pass, stays, done)
        },
        move ||
            requires { IsOut sum_law (C.fits conns.now) C.view other × (1 ≤ (C.view other).places) }
        {
            let mut pass = other;
            lock_often(rt, conns, &mut pass, stays, done);
        },
    );
    held
}

// A connection that lasts has two keys that part at level 15, for which it has the nodes of levels 1
// to 15: of the 16 nodes of the table one is left.
fn tell_held<R: Threads + Wait + Sync>(
    rt: &R,
    alloc: Global,
    told: &mut String,
) -> Result<(), Fail> {
    let (conns, mut pass) = Conns::<Sum, OneHash>::new(alloc, 16, 16)?;
    let stays = AtomicU64::new(0);
    let done = AtomicU64::new(0);
    let lasts = hold_two(rt, &conns, &mut pass, (key_of(0, 0), key_of(1, 0)), true);
    let held = hold_beside(rt, &conns, pass, &stays, &done);
    put(told, &(lasts, held))
}

#[test]
fn a_node_comes_back_beside_its_lock(rt: HostRuntime) -> Result<(), Fail> {
    let mut told = String::new(rt.alloc());
    tell_held(&rt, rt.alloc(), &mut told)?;
    same(&rt, told.as_str(), "(true, 2000)\n");
    Ok(())
}
