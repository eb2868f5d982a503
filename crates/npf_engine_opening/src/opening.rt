// A connection from its claim to its start, a key a function.
//
// What is said to the table is a list of acts with their answers, without the pass's number and its view, so that a packet's explanation takes
// it is. What is given up is exactly what was held.
ghost use Rattle.std.specs.Prelude.{◌≡◌, ◌≤◌, ◌+◌, [], ◌∷◌};
ghost use Rattle.npf_core.specs.History.{state_of};
ghost use Rattle.npf_connections.specs.Said.{Does};
ghost use Rattle.npf_connections.specs.Stay.{IsIn};
ghost use Rattle.npf_connections.specs.Ways.{HoldsThese};
ghost use Rattle.npf_flow.specs.Flows.{flow_law};
ghost use Rattle.npf_connections.specs.Beginning.{IsFullBetween};
ghost use Rattle.npf_engine_opening.specs.Opening.{Translates, Builds, OpensConnection, drawn_changes};
ghost use Rattle.npf_engine_opening.specs.Ways.{is_one_of};
ghost use Rattle.npf_types.specs.declared.key.Way.{Way};

use crate::attempt::{Attempt, Opened, Refusal};
use crate::draw::draw;
use crate::start::{Changes, start};
use npf_connections::Connections;
use npf_core::{ConnId, Held};
use npf_flow::FlowLaw;
use npf_key::key_of;
use npf_nat::{MapPlan, drawn};
use npf_portmap::candidates;
use npf_types::{Addr, Facts, Way};
use std::sync::Wait;

/// Opens a connection for the packet. It is refused as `Full` and `NoNode` only where the table answered so in this call, as
/// `Taken` and `Known` only where it showed this holder, and as `NoPort` only where it showed a holder of each port.
pub fn open<C: Connections<FlowLaw>>(
    rt: &impl Wait,
    conns: &C,
    pass: &mut C::Pass,
    attempt: &Attempt,
) -> Opened
    requires inside { IsIn flow_law (C.fits conns.now) C.view pass.old }
    requires idle { (C.view pass.old).builds ≡ [] }
    ensures inside { IsIn flow_law (C.fits conns.now) C.view pass.new }
    ensures idle { (C.view pass.new).builds ≡ [] }
    ensures opens { Does (C.view pass.old) (C.view pass.new) (λ said. OpensConnection attempt.now said result) }
    ensures full { result ≡ Opened.Refused Refusal.Full → IsFullBetween flow_law (C.view pass.old) (C.view pass.new).history }
    ensures sweep { result ≡ Opened.Refused Refusal.NoNode → (C.view pass.old).sweeps + 1 ≤ (C.view pass.new).sweeps }
{
    let Some(id) = conns.begin(rt, pass, attempt.packet) else {
        return Opened::Refused(Refusal::Full);
    };
    build(rt, conns, pass, attempt, id)
}

/// Holds the forward key of a connection without keys, and goes on with the others. Where the key has a holder, the connection is
/// abandoned and the holder stepped.
fn build<C: Connections<FlowLaw>>(
    rt: &impl Wait,
    conns: &C,
    pass: &mut C::Pass,
    attempt: &Attempt,
    id: ConnId,
) -> Opened
    requires inside { IsIn flow_law (C.fits conns.now) C.view pass.old }
    requires builds { (C.view pass.old).builds ≡ id ∷ [] }
    requires ways { HoldsThese (state_of flow_law (C.view pass.old).history) id (is_one_of []) }
    ensures inside { IsIn flow_law (C.fits conns.now) C.view pass.new }
    ensures idle { (C.view pass.new).builds ≡ [] }
    ensures does { Does (C.view pass.old) (C.view pass.new) (λ said. Builds attempt.now id said result) }
    ensures sweep { result ≡ Opened.Refused Refusal.NoNode → (C.view pass.old).sweeps + 1 ≤ (C.view pass.new).sweeps }
{
    let forward = key_of(&attempt.facts, attempt.ifid);
    match conns.hold(rt, pass, id, forward, Way::Forward) {
        Held::Done => translate(rt, conns, pass, attempt, id),
        Held::NoNode => {
            conns.abandon(rt, pass, id);
            Opened::Refused(Refusal::NoNode)
        }
        Held::Taken(holder) => {
            conns.abandon(rt, pass, id);
            let packet = attempt.packet;
            let answer = conns.step(rt, pass, holder.id, packet, holder.way, &attempt.arg);
            Opened::Known { holder, answer }
        }
    }
}

/// Draws a port for a connection that holds its forward key, where the map wants one, and starts it.
fn translate<C: Connections<FlowLaw>>(
    rt: &impl Wait,
    conns: &C,
    pass: &mut C::Pass,
    attempt: &Attempt,
    id: ConnId,
) -> Opened
    requires inside { IsIn flow_law (C.fits conns.now) C.view pass.old }
    requires builds { (C.view pass.old).builds ≡ id ∷ [] }
    requires ways { HoldsThese (state_of flow_law (C.view pass.old).history) id (is_one_of (Way.Forward ∷ [])) }
    ensures inside { IsIn flow_law (C.fits conns.now) C.view pass.new }
    ensures idle { (C.view pass.new).builds ≡ [] }
    ensures translates { Does (C.view pass.old) (C.view pass.new) (λ said. Translates attempt.now id said result) }
    ensures sweep { result ≡ Opened.Refused Refusal.NoNode → (C.view pass.old).sweeps + 1 ≤ (C.view pass.new).sweeps }
{
    match attempt.plan {
        MapPlan::Fixed { there, back } => {
            start(rt, conns, pass, attempt, id, Changes { there, back })
        }
        MapPlan::Draw {
            addr,
            min,
            max,
            first,
        } => match draw(rt, conns, pass, id, addr, &mut candidates(min, max, first)) {
            Ok(port) => {
                let changes = drawn_changes(&attempt.facts, addr, port);
                start(rt, conns, pass, attempt, id, changes)
            }
            Err(why) => {
                conns.abandon(rt, pass, id);
                Opened::Refused(why)
            }
        },
    }
}

/// The changes by a drawn port.
fn drawn_changes(facts: &Facts, addr: Addr, port: u16) -> Changes
    ensures { result ≡ drawn_changes facts.now addr port }
{
    let (there, back) = drawn(facts, addr, port);
    Changes { there, back }
}
