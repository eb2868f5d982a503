// Many passes at work in one small table, each in a thread of its own: connections are opened,
// stepped, abandoned, expired and freed by all of them at a time.
ghost use Rattle.std.specs.Prelude.{◌≡◌, ℕ, ◌≤◌, ◌<◌};
ghost use Rattle.std.specs.Thread.{IsSync};
ghost use Rattle.npf_connections.specs.Pass.{all_places};
ghost use Rattle.npf_connections.specs.Stay.{IsOut};
ghost use Rattle.npf_connections_tests.specs.Sum.{sum_law};

use crate::acts::fill;
use crate::answers::put;
use crate::asking::{Then, ask, step};
use crate::sum::Sum;
use npf_connections::Connections;
use npf_core::{ConnId, Stepped};
use npf_types::Key;
use std::alloc::{AllocError, Global};
use std::sync::Wait;
use std::sync::atomic::{AtomicU64, Ordering};
use std::test::Fail;
use std::thread::{Threads, join, yield_now};

/// How often all passes are split off and joined again.
const RUNS: u32 = 10;

/// The number of the last of 64 passes.
const LAST: u64 = 63;

/// The acts of a pass in a run, which begin once all passes have come.
const ACTS: u64 = 20;

/// A pass goes ahead after so many turns, whoever has come.
const TURNS: u64 = 100_000;

/// The keys that are asked for: half as many again as there are slots.
const KEYS: u64 = 48;

/// What a step was told that was done.
#[derive(Clone, Copy, PartialEq, Eq, PartialOrd, Ord)]
struct Told {
    id: ConnId,
    place: u64,
    sum: u32,
}

/// What steps were told, unless memory ran out.
type Steps = Result<Vec<Told>, AllocError>;

// A number that looks random, by SplitMix64 (Steele, Lea, Flood, "Fast splittable pseudorandom
// number generators", 2014).
fn drawn(number: u64) -> u64 {
    let state = number.wrapping_add(1).wrapping_mul(0x9e37_79b9_7f4a_7c15);
    let mixed = (state ^ state >> 30).wrapping_mul(0xbf58_476d_1ce4_e5b9);
    let mixed = (mixed ^ mixed >> 27).wrapping_mul(0x94d0_49bb_1331_11eb);
    mixed ^ mixed >> 31
}

// Takes down what a step was told, if it was done.
fn note(steps: &mut Vec<Told>, stepped: Option<(ConnId, Stepped<u32>)>) -> Result<(), AllocError> {
    if let Some((id, Stepped::Done { reply, place })) = stepped {
        steps.push(Told {
            id,
            place,
            sum: reply,
        })?;
    }
    Ok(())
}

// One act of a pass, by a drawn number, and what a step was told.
fn act<R: Wait, C: Connections<Sum>>(
    rt: &R,
    conns: &C,
    pass: &mut C::Pass,
    draw: u64,
    steps: &mut Vec<Told>,
) -> Result<(), AllocError>
    requires out { IsOut sum_law (C.fits conns.now) C.view pass.old }
    requires place { 1 ≤ (C.view pass.old).places }
    ensures out { IsOut sum_law (C.fits conns.now) C.view pass.new }
    ensures places { (C.view pass.new).places ≡ (C.view pass.old).places }
{
    let key = Key([17, 1, 2, 3, draw / 16 % KEYS]);
    match draw % 16 {
        0..=2 => {
            ask(rt, conns, pass, draw, key, Then::Starts);
        }
        3 => {
            ask(rt, conns, pass, draw, key, Then::IsAbandoned);
        }
        4 => {
            conns.expire(rt, pass, 100 + draw / 16 % 64);
        }
        5 => conns.collect(rt, pass),
        _ => note(steps, step(rt, conns, pass, draw, key))?,
    }
    Ok(())
}

// Waits until all passes have come.
fn meet(come: &AtomicU64) {
    come.fetch_add(1, Ordering::SeqCst);
    for _ in 0..TURNS {
        if come.load(Ordering::SeqCst) > LAST {
            return;
        }
        yield_now();
    }
}

// The acts of the pass of this number, and what its steps were told.
fn work<R: Wait, C: Connections<Sum>>(
    rt: &R,
    alloc: Global,
    conns: &C,
    pass: &mut C::Pass,
    come: &AtomicU64,
    number: u64,
) -> Steps
    requires out { IsOut sum_law (C.fits conns.now) C.view pass.old }
    requires place { 1 ≤ (C.view pass.old).places }
    ensures out { IsOut sum_law (C.fits conns.now) C.view pass.new }
    ensures places { (C.view pass.new).places ≡ (C.view pass.old).places }
{
    let mut steps = Vec::new(alloc);
    meet(come);
    for n in 0..ACTS {
        let draw = drawn(number.wrapping_mul(ACTS).wrapping_add(n));
        act(rt, conns, pass, draw, &mut steps)?;
        yield_now();
    }
    Ok(steps)
}

// What the steps of both were told.
fn both(some: Steps, others: Steps) -> Steps {
    let mut all = some?;
    all.extend_from_slice(others?.as_slice())?;
    Ok(all)
}

// The acts of the passes from this number down to 0, of which all but the last are split off, and
// joined again.
fn work_beside<R: Threads + Wait + Sync, C: Connections<Sum>>(
    rt: &R,
    alloc: Global,
    conns: &C,
    pass: C::Pass,
    come: &AtomicU64,
    number: u64,
) -> (C::Pass, Steps)
    requires out { IsOut sum_law (C.fits conns.now) C.view pass }
    requires places { number < (C.view pass).places }
    ensures out { IsOut sum_law (C.fits conns.now) C.view result.0 }
    ensures places { (C.view result.0).places ≡ (C.view pass).places }
{
    let mut pass = pass;
    if number == 0 {
        let steps = work(rt, alloc, conns, &mut pass, come, 0);
        return (pass, steps);
    }
    let other = conns.split(rt, &mut pass);
    let ((other, steps), (whole, others)) = join(
        rt,
        move ||
            requires { IsOut sum_law (C.fits conns.now) C.view other × (1 ≤ (C.view other).places) }
        {
            let mut pass = other;
            let steps = work(rt, alloc, conns, &mut pass, come, number);
            (pass, steps)
        },
        move || -> (C::Pass, Steps)
            requires { IsSync R.row × IsOut sum_law (C.fits conns.now) C.view pass × (0 < number) × (number ≤ (C.view pass).places) }
            ensures { IsOut sum_law (C.fits conns.entry.now) C.view result.0 × ((C.view result.0).places ≡ (C.view pass).places) }
        { work_beside(rt, alloc, conns, pass, come, number - 1) },
    );
    let mut whole = whole;
    conns.join(rt, &mut whole, other);
    (whole, both(steps, others))
}

// Whether the places that the steps of each connection were told are 1, 2 and so on, each once, and
// each was answered the sum of those before it. Each brings 7 to what is 100 at the start.
fn count_up(steps: &[Told]) -> bool {
    let mut id = None;
    let mut place = 0u64;
    for step in steps {
        place = if id == Some(step.id) {
            place.saturating_add(1)
        } else {
            1
        };
        id = Some(step.id);
        let sum = place.saturating_mul(7).saturating_add(93);
        if step.place != place || u64::from(step.sum) != sum {
            return false;
        }
    }
    true
}

/// Tells of ten runs of 64 passes beside each other whether the steps of each connection were told
/// places that count up, whether there were any, and how many connections are opened of 33 once all
/// are expired and collected.
pub(crate) fn tell_crowds<R: Threads + Wait + Sync, C: Connections<Sum>>(
    rt: &R,
    alloc: Global,
    conns: &C,
    pass: C::Pass,
    told: &mut String,
) -> Result<(), Fail>
    requires out { IsOut sum_law (C.fits conns.now) C.view pass }
    requires sole { (C.view pass).places ≡ all_places }
{
    let mut pass = pass;
    for _ in 0..RUNS {
        let come = AtomicU64::new(0);
        let (whole, steps) = work_beside(rt, alloc, conns, pass, &come, LAST);
        pass = whole;
        let mut steps = steps?;
        steps.sort()?;
        free_all(rt, conns, &mut pass);
        let opened = fill(rt, conns, &mut pass, 33);
        free_all(rt, conns, &mut pass);
        put(told, &(count_up(&steps), !steps.is_empty(), opened))?;
    }
    Ok(())
}

// Expires what is live, and frees what is dead.
fn free_all<C: Connections<Sum>>(rt: &impl Wait, conns: &C, pass: &mut C::Pass)
    requires out { IsOut sum_law (C.fits conns.now) C.view pass.old }
    ensures out { IsOut sum_law (C.fits conns.now) C.view pass.new }
    ensures places { (C.view pass.new).places ≡ (C.view pass.old).places }
{
    conns.expire(rt, pass, u64::MAX);
    conns.collect(rt, pass);
}
