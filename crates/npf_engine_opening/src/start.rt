// The last key of a connection, and its start.
ghost use Rattle.std.specs.Prelude.{◌≡◌, ◌≢◌, ◌≤◌, ◌+◌, [], ◌∷◌};
ghost use Rattle.npf_core.specs.History.{state_of};
ghost use Rattle.npf_connections.specs.Said.{Does};
ghost use Rattle.npf_connections.specs.Stay.{IsIn};
ghost use Rattle.npf_connections.specs.Ways.{HoldsThese};
ghost use Rattle.npf_flow.specs.Flows.{flow_law};
ghost use Rattle.npf_engine_opening.specs.Start.{StartsConnection, HoldsBackward, flow_of};
ghost use Rattle.npf_engine_opening.specs.Ways.{is_one_of, ways_before};

use crate::attempt::{Attempt, Opened, Refusal};
use npf_connections::Connections;
use npf_core::{ConnId, Held};
use npf_flow::{Flow, FlowLaw, open_flow};
use npf_key::keys_of;
use npf_types::{Change, Way};
use std::sync::Wait;

/// What translates the packets of a connection, and what its answers.
#[derive(Clone, Copy, Debug, PartialEq, Eq)]
pub(crate) struct Changes {
    pub there: Change,
    pub back: Change,
}

/// Holds the backward key of a connection that holds its other keys, unless it is the forward one, and starts it.
pub(crate) fn start<C: Connections<FlowLaw>>(
    rt: &impl Wait,
    conns: &C,
    pass: &mut C::Pass,
    attempt: &Attempt,
    id: ConnId,
    changes: Changes,
) -> Opened
    requires inside { IsIn flow_law (C.fits conns.now) C.view pass.old }
    requires builds { (C.view pass.old).builds ≡ id ∷ [] }
    requires ways { HoldsThese (state_of flow_law (C.view pass.old).history) id (is_one_of (ways_before attempt.now.plan)) }
    ensures inside { IsIn flow_law (C.fits conns.now) C.view pass.new }
    ensures idle { (C.view pass.new).builds ≡ [] }
    ensures starts { Does (C.view pass.old) (C.view pass.new) (λ said. StartsConnection attempt.now id changes said result) }
    ensures sweep { result ≡ Opened.Refused Refusal.NoNode → (C.view pass.old).sweeps + 1 ≤ (C.view pass.new).sweeps }
{
    match hold_backward(rt, conns, pass, attempt, id, &changes.there) {
        Held::Done => {
            conns.start(rt, pass, id, attempt.packet, flow_of(attempt, changes));
            Opened::Open {
                id,
                there: changes.there,
            }
        }
        Held::NoNode => {
            conns.abandon(rt, pass, id);
            Opened::Refused(Refusal::NoNode)
        }
        Held::Taken(holder) => {
            conns.abandon(rt, pass, id);
            Opened::Refused(Refusal::Taken(holder))
        }
    }
}

/// Holds the backward key, unless it is the forward one. After a refusal the connection holds what it held.
fn hold_backward<C: Connections<FlowLaw>>(
    rt: &impl Wait,
    conns: &C,
    pass: &mut C::Pass,
    attempt: &Attempt,
    id: ConnId,
    there: &Change,
) -> Held
    requires inside { IsIn flow_law (C.fits conns.now) C.view pass.old }
    requires builds { (C.view pass.old).builds ≡ id ∷ [] }
    requires ways { HoldsThese (state_of flow_law (C.view pass.old).history) id (is_one_of (ways_before attempt.now.plan)) }
    ensures inside { IsIn flow_law (C.fits conns.now) C.view pass.new }
    ensures builds { (C.view pass.new).builds ≡ id ∷ [] }
    ensures ways { result ≢ Held.Done → HoldsThese (state_of flow_law (C.view pass.new).history) id (is_one_of (ways_before attempt.now.plan)) }
    ensures holds { Does (C.view pass.old) (C.view pass.new) (λ said. HoldsBackward attempt.now id there.now said result) }
    ensures sweep { result ≡ Held.NoNode → (C.view pass.old).sweeps + 1 ≤ (C.view pass.new).sweeps }
{
    let (forward, backward) = keys_of(&attempt.facts, attempt.ifid, there);
    if backward == forward {
        return Held::Done;
    }
    conns.hold(rt, pass, id, backward, Way::Backward)
}

/// The flow that the packet opens.
fn flow_of(attempt: &Attempt, changes: Changes) -> Flow
    ensures { result ≡ flow_of attempt.now changes }
{
    open_flow(
        attempt.arg,
        attempt.settings,
        attempt.packet,
        changes.there,
        changes.back,
        attempt.action,
    )
}
