// Acts of one pass, one after the other, and what each is answered.
ghost use Rattle.std.specs.Prelude.{◌≡◌, ◌≤◌};
ghost use Rattle.npf_connections.specs.Pass.{all_places};
ghost use Rattle.npf_connections.specs.Stay.{IsOut};
ghost use Rattle.npf_connections_tests.specs.Sum.{sum_law};

use crate::answers::put;
use crate::asking::{Then, ask, step};
use crate::sum::Sum;
use npf_connections::Connections;
use npf_core::Held;
use npf_types::Key;
use std::sync::Wait;
use std::test::Fail;

#[derive(Clone, Copy)]
pub(crate) enum Act {
    /// A connection asks for the key, and starts.
    Ask(Key),
    /// A connection asks for the key, and is abandoned.
    Abandon(Key),
    /// The key's holder takes a step.
    Step(Key),
    /// So many connections ask for a key of their own, until one is refused.
    Fill(u64),
    Expire(u64),
    Collect,
    /// Each slot is copied, in order.
    Copy,
}

/// How many of so many flows, each with a key of its own, are opened before one is refused.
pub(crate) fn fill<C: Connections<Sum>>(
    rt: &impl Wait,
    conns: &C,
    pass: &mut C::Pass,
    flows: u64,
) -> u64
    requires out { IsOut sum_law (C.fits conns.now) C.view pass.old }
    requires place { 1 ≤ (C.view pass.old).places }
    ensures out { IsOut sum_law (C.fits conns.now) C.view pass.new }
    ensures places { (C.view pass.new).places ≡ (C.view pass.old).places }
{
    for n in 0..flows {
        let asked = ask(rt, conns, pass, n, Key([17, 1, 2, 3, n]), Then::Starts);
        let Some((_, Held::Done)) = asked else {
            return n;
        };
    }
    flows
}

// Copies each slot, in order, and tells what was copied.
fn copy_all<C: Connections<Sum>>(
    rt: &impl Wait,
    conns: &C,
    pass: &mut C::Pass,
    told: &mut String,
) -> Result<(), Fail>
    requires out { IsOut sum_law (C.fits conns.now) C.view pass.old }
    requires sole { (C.view pass.old).places ≡ all_places }
    ensures out { IsOut sum_law (C.fits conns.now) C.view pass.new }
    ensures same { C.view pass.new ≡ C.view pass.old }
{
    for slot in 0..conns.slots() {
        put(told, &conns.copy_slot(rt, pass, slot))?;
    }
    Ok(())
}

// Does the act with this number, and tells what it was answered.
fn answer<C: Connections<Sum>>(
    rt: &impl Wait,
    conns: &C,
    pass: &mut C::Pass,
    n: u64,
    act: Act,
    told: &mut String,
) -> Result<(), Fail>
    requires out { IsOut sum_law (C.fits conns.now) C.view pass.old }
    requires sole { (C.view pass.old).places ≡ all_places }
    ensures out { IsOut sum_law (C.fits conns.now) C.view pass.new }
    ensures places { (C.view pass.new).places ≡ (C.view pass.old).places }
{
    match act {
        Act::Ask(key) => put(told, &ask(rt, conns, pass, n, key, Then::Starts)),
        Act::Abandon(key) => put(told, &ask(rt, conns, pass, n, key, Then::IsAbandoned)),
        Act::Step(key) => put(told, &step(rt, conns, pass, n, key)),
        Act::Fill(flows) => put(told, &fill(rt, conns, pass, flows)),
        Act::Expire(now) => put(told, &conns.expire(rt, pass, now)),
        Act::Collect => {
            conns.collect(rt, pass);
            Ok(())
        }
        Act::Copy => copy_all(rt, conns, pass, told),
    }
}

/// Does the acts, and tells what each was answered.
pub(crate) fn answer_all<C: Connections<Sum>>(
    rt: &impl Wait,
    conns: &C,
    pass: &mut C::Pass,
    acts: &[Act],
    told: &mut String,
) -> Result<(), Fail>
    requires out { IsOut sum_law (C.fits conns.now) C.view pass.old }
    requires sole { (C.view pass.old).places ≡ all_places }
{
    for (n, act) in acts.iter().enumerate() {
        answer(rt, conns, pass, n as u64, *act, told)?;
    }
    Ok(())
}
