// How a packet finds the live connection that it belongs to.
ghost use Rattle.npf_connections.specs.Said.{Does};
ghost use Rattle.npf_connections.specs.Stay.{GoesOn, IsIn};
ghost use Rattle.npf_flow.specs.Flows.{flow_law};
ghost use Rattle.npf_engine.specs.Connection.{FindsByKey, FindsEither};

use npf_connections::Connections;
use npf_core::{ConnId, Stepped};
use npf_flow::{FlowArg, FlowLaw, FlowReply};
use npf_types::{Key, Way};
use std::sync::Wait;

/// The live connection that took a packet: what its law answered, and which of its steps the packet is.
#[derive(Clone, Copy, Debug, PartialEq, Eq)]
pub struct Met {
    pub id: ConnId,
    pub reply: FlowReply,
    pub place: u64,
}

/// The keys that a packet may be found by: that of its interface, and that of every interface.
#[derive(Clone, Copy, Debug, PartialEq, Eq)]
pub(crate) struct KeyPair {
    pub(crate) own: Key,
    pub(crate) every: Key,
}

/// Looks for a packet's connection by the one key, and, where no connection takes the packet, by the other. Inlined, as `find` is.
#[inline(always)]
pub(crate) fn find_either<R: Wait, C: Connections<FlowLaw>>(
    rt: &R,
    conns: &C,
    pass: &mut C::Pass,
    n: u64,
    keys: &KeyPair,
    arg: &FlowArg,
) -> Option<Met>
    requires inside { IsIn flow_law (C.fits conns.now) C.view pass.old }
    ensures inside { IsIn flow_law (C.fits conns.now) C.view pass.new }
    ensures view { GoesOn (record (C.view pass.old) { answered = (C.view pass.new).answered }) (C.view pass.new) }
    ensures does { Does (C.view pass.old) (C.view pass.new) (λ said. FindsEither n arg.entry.now keys.now.own keys.now.every said result) }
{
    if let Some(met) = find(rt, conns, pass, n, keys.own, arg) {
        return Some(met);
    }
    find(rt, conns, pass, n, keys.every, arg)
}

/// Looks for a key, and steps its holder unless that holds it as a drawn port. Inlined, so that a miss makes no `Met`.
#[inline(always)]
fn find<R: Wait, C: Connections<FlowLaw>>(
    rt: &R,
    conns: &C,
    pass: &mut C::Pass,
    n: u64,
    key: Key,
    arg: &FlowArg,
) -> Option<Met>
    requires inside { IsIn flow_law (C.fits conns.now) C.view pass.old }
    ensures inside { IsIn flow_law (C.fits conns.now) C.view pass.new }
    ensures view { GoesOn (record (C.view pass.old) { answered = (C.view pass.new).answered }) (C.view pass.new) }
    ensures does { Does (C.view pass.old) (C.view pass.new) (λ said. FindsByKey n arg.entry.now key said result) }
{
    let Some(found) = conns.look(rt, pass, n, key) else {
        return None;
    };
    if found.way == Way::Port {
        return None;
    }
    match conns.step(rt, pass, found.id, n, found.way, arg) {
        Stepped::Done { reply, place } => Some(Met {
            id: found.id,
            reply,
            place,
        }),
        Stepped::NotLive => None,
    }
}
