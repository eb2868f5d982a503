// What many passes of one table do stands in the history of the pass that takes them in.
ghost use Rattle.std.specs.Prelude.{◌≡◌, ◌≢◌, ℕ, ◌≤◌, ◌<◌, false, ◌∷◌, [], IfSome};
ghost use Rattle.npf_core.specs.declared.act.Act.TheVariants.{Look};
ghost use Rattle.npf_core.specs.declared.held.Held.{Held};
ghost use Rattle.npf_core.specs.declared.reply.Reply.TheVariants.{ToLook};
ghost use Rattle.npf_core.specs.History.{IsPrefix};
ghost use Rattle.npf_connections.specs.Stay.{IsOut};
ghost use Rattle.npf_connections.specs.Said.{Did};
ghost use Rattle.npf_connections_tests.specs.Joined.{TookInLook, HasHold};
ghost use Rattle.npf_connections_tests.specs.Sum.{sum_law};

use crate::asking::{Asked, Then, ask};
use crate::sum::{KEY, OTHER_KEY, Sum};
use npf_connections::Connections;
use npf_core::{Found, Held};
use npf_types::{Key, Way};
use std::sync::Wait;
use std::thread::{Threads, join};

// Looks the key up, and does nothing else.
fn look_once<R: Wait, C: Connections<Sum>>(
    rt: &R,
    conns: &C,
    pass: &mut C::Pass,
    n: u64,
    key: Key,
) -> Option<Found>
    requires out { IsOut sum_law (C.fits conns.now) C.view pass.old }
    requires place { 1 ≤ (C.view pass.old).places }
    ensures out { IsOut sum_law (C.fits conns.now) C.view pass.new }
    ensures did { Did (C.view pass.old) (C.view pass.new) (record { act = Look n key; reply = ToLook result } ∷ []) }
{
    conns.enter(rt, pass);
    let found = conns.look(rt, pass, n, key);
    conns.leave(rt, pass);
    found
}

// Splits so many passes off, each of which looks the key up, and joins them, the last first. Answers how many found a holder.
fn look_apart<R: Wait, C: Connections<Sum>>(
    rt: &R,
    conns: &C,
    pass: &mut C::Pass,
    count: u64,
    key: Key,
) -> u64
    requires out { IsOut sum_law (C.fits conns.now) C.view pass.old }
    requires places { count < (C.view pass.old).places }
    ensures out { IsOut sum_law (C.fits conns.now) C.view pass.new }
    ensures places { (C.view pass.new).places ≡ (C.view pass.old).places }
    ensures most { result ≤ count }
    ensures begins { IsPrefix (C.view pass.old).history (C.view pass.new).history }
    ensures looks { (n : ℕ) → 1 ≤ n → n ≤ count → TookInLook (C.view pass.new) n key }
{
    if count == 0 {
        return 0;
    }
    let mut other = conns.split(rt, pass);
    let found = look_once(rt, conns, &mut other, count, key);
    let more = look_apart(rt, conns, pass, count - 1, key);
    conns.join(rt, pass, other);
    if found.is_some() { more + 1 } else { more }
}

// Two threads ask for one key at once.
fn ask_at_once<R: Threads + Wait + Sync, C: Connections<Sum>>(
    rt: &R,
    conns: &C,
    pass: &mut C::Pass,
    key: Key,
) -> (Asked, Asked)
    requires out { IsOut sum_law (C.fits conns.now) C.view pass.old }
    requires places { 3 ≤ (C.view pass.old).places }
    ensures out { IsOut sum_law (C.fits conns.now) C.view pass.new }
    ensures begins { IsPrefix (C.view pass.old).history (C.view pass.new).history }
    ensures first { IfSome result.0 (λ asked. asked.1 ≢ Held.NoNode → HasHold (C.view pass.new).history key asked.0 asked.1) }
    ensures second { IfSome result.1 (λ asked. asked.1 ≢ Held.NoNode → HasHold (C.view pass.new).history key asked.0 asked.1) }
{
    let first = conns.split(rt, pass);
    let second = conns.split(rt, pass);
    let ((first, one), (second, other)) = join(
        rt,
        move ||
            requires { IsOut sum_law (C.fits conns.now) C.view first × (1 ≤ (C.view first).places) }
        {
            let mut pass = first;
            let asked = ask(rt, conns, &mut pass, 1, key, Then::Starts);
            (pass, asked)
        },
        move ||
            requires { IsOut sum_law (C.fits conns.now) C.view second × (1 ≤ (C.view second).places) }
        {
            let mut pass = second;
            let asked = ask(rt, conns, &mut pass, 2, key, Then::Starts);
            (pass, asked)
        },
    );
    conns.join(rt, pass, first);
    conns.join(rt, pass, second);
    (one, other)
}

// The one holds the key, and the other was told so.
fn is_taken_by(one: Asked, other: Asked) -> bool {
    let Some((id, Held::Done)) = one else {
        return false;
    };
    let Some((_, Held::Taken(found))) = other else {
        return false;
    };
    found
        == Found {
            id,
            way: Way::Forward,
        }
}

/// How many of 64 passes find a connection that was opened before, and whether of two threads that ask for another key at once the
/// one got it and the other was told so.
pub(crate) fn shared<R: Threads + Wait + Sync, C: Connections<Sum>>(
    rt: &R,
    conns: &C,
    pass: &mut C::Pass,
) -> (u64, bool)
    requires out { IsOut sum_law (C.fits conns.now) C.view pass.old }
    requires places { 65 ≤ (C.view pass.old).places }
{
    ask(rt, conns, pass, 0, KEY, Then::Starts);
    let found = look_apart(rt, conns, pass, 64, KEY);
    let (one, other) = ask_at_once(rt, conns, pass, OTHER_KEY);
    (found, is_taken_by(one, other) || is_taken_by(other, one))
}
