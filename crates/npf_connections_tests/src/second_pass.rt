// Slots that come again, or don't, beside a second pass.
ghost use Rattle.std.specs.Prelude.{◌≤◌};
ghost use Rattle.npf_connections.specs.Stay.{IsOut};
ghost use Rattle.npf_connections_tests.specs.Sum.{sum_law};

use crate::asking::{Asked, Then, ask};
use crate::sum::{KEY, Sum};
use npf_connections::Connections;
use npf_core::Stepped;
use npf_types::Way;
use std::sync::Wait;

/// While the second pass is in the stay in which it looked the connection up, the slot isn't freed, and its step finds the
/// connection not Live; once it left, the slot is freed.
pub(crate) fn known_is_not_freed<C: Connections<Sum>>(
    rt: &impl Wait,
    conns: &C,
    pass: &mut C::Pass,
) -> (u64, Asked, Option<Stepped<u32>>, Asked)
    requires out { IsOut sum_law (C.fits conns.now) C.view pass.old }
    requires place { 2 ≤ (C.view pass.old).places }
{
    let mut second = conns.split(rt, pass);
    ask(rt, conns, pass, 1, KEY, Then::Starts);
    conns.enter(rt, &mut second);
    let found = conns.look(rt, &mut second, 2, KEY);
    let killed = conns.expire(rt, pass, 100);
    conns.collect(rt, pass);
    conns.collect(rt, pass);
    let kept = ask(rt, conns, pass, 3, KEY, Then::Starts);
    let stale = match found {
        Some(found) => Some(conns.step(rt, &mut second, found.id, 4, Way::Forward, &7)),
        None => None,
    };
    conns.leave(rt, &mut second);
    conns.join(rt, pass, second);
    conns.collect(rt, pass);
    let freed = ask(rt, conns, pass, 5, KEY, Then::Starts);
    (killed, kept, stale, freed)
}

/// A connection is killed while a second pass rests outside any stay: after three collections its slot comes again. The second
/// pass is joined at last.
pub(crate) fn freed_beside_a_resting_pass<C: Connections<Sum>>(
    rt: &impl Wait,
    conns: &C,
    pass: &mut C::Pass,
) -> Asked
    requires out { IsOut sum_law (C.fits conns.now) C.view pass.old }
    requires place { 2 ≤ (C.view pass.old).places }
{
    let second = conns.split(rt, pass);
    ask(rt, conns, pass, 1, KEY, Then::Starts);
    conns.expire(rt, pass, 100);
    conns.collect(rt, pass);
    conns.collect(rt, pass);
    conns.collect(rt, pass);
    let again = ask(rt, conns, pass, 2, KEY, Then::Starts);
    conns.join(rt, pass, second);
    again
}
