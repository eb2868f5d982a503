// The port of a translation: the first of its candidates that nobody holds.
//
// A hold that finds no node makes no entry, since the machine has no such answer; the count of full sweeps shows it.
ghost use Rattle.std.specs.Prelude.{◌≡◌, ◌≤◌, ◌+◌, Err, [], ◌∷◌};
ghost use Rattle.npf_types.specs.declared.key.Way.{Way};
ghost use Rattle.npf_core.specs.History.{state_of};
ghost use Rattle.npf_connections.specs.Said.{Does};
ghost use Rattle.npf_connections.specs.Stay.{IsIn};
ghost use Rattle.npf_connections.specs.Ways.{HoldsThese};
ghost use Rattle.npf_flow.specs.Flows.{flow_law};
ghost use Rattle.npf_engine_opening.specs.Draw.{Draws, drawn_ways};
ghost use Rattle.npf_engine_opening.specs.Ways.{is_one_of};

use crate::attempt::Refusal;
use npf_connections::Connections;
use npf_core::{ConnId, Held};
use npf_flow::FlowLaw;
use npf_key::port_key;
use npf_portmap::PortDraw;
use npf_types::{Addr, Way};
use std::sync::Wait;

/// Holds the key of the first port at the address that has no holder, and answers the port.
pub(crate) fn draw<C: Connections<FlowLaw>>(
    rt: &impl Wait,
    conns: &C,
    pass: &mut C::Pass,
    id: ConnId,
    addr: Addr,
    ports: &mut PortDraw,
) -> Result<u16, Refusal>
    requires inside { IsIn flow_law (C.fits conns.now) C.view pass.old }
    requires builds { (C.view pass.old).builds ≡ id ∷ [] }
    requires ways { HoldsThese (state_of flow_law (C.view pass.old).history) id (is_one_of (Way.Forward ∷ [])) }
    ensures inside { IsIn flow_law (C.fits conns.now) C.view pass.new }
    ensures builds { (C.view pass.new).builds ≡ id ∷ [] }
    ensures ways { HoldsThese (state_of flow_law (C.view pass.new).history) id (is_one_of (drawn_ways result)) }
    ensures draws { Does (C.view pass.old) (C.view pass.new) (λ said. Draws id addr ports.old said result) }
    ensures sweep { result ≡ Err Refusal.NoNode → (C.view pass.old).sweeps + 1 ≤ (C.view pass.new).sweeps }
{
    while let Some(port) = ports.next() {
        match conns.hold(rt, pass, id, port_key(addr, port), Way::Port) {
            Held::Done => return Ok(port),
            Held::Taken(_) => {}
            Held::NoNode => return Err(Refusal::NoNode),
        }
    }
    Err(Refusal::NoPort)
}
