// Connections that ask for a key, and steps of a key's holder, each in a stay of its own.
ghost use Rattle.std.specs.Prelude.{◌≡◌, ◌≢◌, ◌≤◌, IfSome};
ghost use Rattle.npf_core.specs.declared.held.Held.{Held};
ghost use Rattle.npf_connections.specs.Stay.{IsOut};
ghost use Rattle.npf_connections_tests.specs.Joined.{HasHold};
ghost use Rattle.npf_connections_tests.specs.Sum.{sum_law};

use crate::sum::Sum;
use npf_connections::Connections;
use npf_core::{ConnId, Found, Held, Stepped};
use npf_types::{Key, Way};
use std::sync::Wait;

/// A connection that was begun, and what it was answered when it asked for the key. None where the table was full.
pub(crate) type Asked = Option<(ConnId, Held)>;

/// What becomes of a connection that holds its key.
#[derive(Clone, Copy, PartialEq, Eq)]
pub(crate) enum Then {
    /// It starts, and is due at 100.
    Starts,
    IsAbandoned,
}

/// Begins a connection that asks for the key. It is abandoned where it doesn't get it.
pub(crate) fn ask<R: Wait, C: Connections<Sum>>(
    rt: &R,
    conns: &C,
    pass: &mut C::Pass,
    n: u64,
    key: Key,
    then: Then,
) -> Asked
    requires out { IsOut sum_law (C.fits conns.now) C.view pass.old }
    requires place { 1 ≤ (C.view pass.old).places }
    ensures out { IsOut sum_law (C.fits conns.now) C.view pass.new }
    ensures number { (C.view pass.new).number ≡ (C.view pass.old).number }
    ensures slots { (C.view pass.new).slots ≡ (C.view pass.old).slots }
    ensures places { (C.view pass.new).places ≡ (C.view pass.old).places }
    ensures asks { IfSome result (λ asked. asked.1 ≢ Held.NoNode → HasHold (C.view pass.new).history key asked.0 asked.1) }
{
    conns.enter(rt, pass);
    let Some(id) = conns.begin(rt, pass, n) else {
        conns.leave(rt, pass);
        return None;
    };
    let held = conns.hold(rt, pass, id, key, Way::Forward);
    let starts = held == Held::Done && then == Then::Starts;
    if starts {
        conns.start(rt, pass, id, n, 100);
    } else {
        conns.abandon(rt, pass, id);
    }
    conns.leave(rt, pass);
    Some((id, held))
}

/// Steps the key's holder by 7.
pub(crate) fn step<C: Connections<Sum>>(
    rt: &impl Wait,
    conns: &C,
    pass: &mut C::Pass,
    n: u64,
    key: Key,
) -> Option<(ConnId, Stepped<u32>)>
    requires out { IsOut sum_law (C.fits conns.now) C.view pass.old }
    requires place { 1 ≤ (C.view pass.old).places }
    ensures out { IsOut sum_law (C.fits conns.now) C.view pass.new }
    ensures places { (C.view pass.new).places ≡ (C.view pass.old).places }
{
    conns.enter(rt, pass);
    let found = conns.look(rt, pass, n, key);
    let stepped = match found {
        Some(Found { id, .. }) => Some((id, conns.step(rt, pass, id, n, Way::Forward, &7))),
        None => None,
    };
    conns.leave(rt, pass);
    stepped
}
