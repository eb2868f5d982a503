// The ICMP gateway: how an error of ICMP finds the live connection whose packet it quotes.
ghost use Rattle.std.specs.Prelude.{true};
ghost use Rattle.npf_connections.specs.Said.{Does};
ghost use Rattle.npf_connections.specs.Stay.{GoesOn, IsIn};
ghost use Rattle.npf_flow.specs.Flows.{flow_law};
ghost use Rattle.npf_packet.specs.declared.decoded.Decoded.TheVariants.{Ip};
ghost use Rattle.npf_packet.specs.Decoder.{Decodes};
ghost use Rattle.npf_engine.specs.Answer.{arrival_of};
ghost use Rattle.npf_engine.specs.Gateway.{AsksQuoted};

use crate::connection::{KeyPair, Met, find_either};
use crate::crossing::{Crossing, peek_of};
use npf_connections::Connections;
use npf_flow::FlowLaw;
use npf_icmpalg::{inner_key, inner_of};
use npf_model::Model;
use npf_rewrite::decoded_has_room;
use npf_types::IfId;
use std::sync::Wait;

/// Looks for the connection of the packet that an error quotes, where the configuration has the gateway. The connection's flow stays as
/// it is.
#[inline(always)]
pub(crate) fn find_quoted<R: Wait, C: Connections<FlowLaw>>(
    rt: &R,
    conns: &C,
    pass: &mut C::Pass,
    crossing: &Crossing,
    model: &Model,
) -> Option<Met>
    requires inside { IsIn flow_law (C.fits conns.now) C.view pass.old }
    requires decodes { Decodes crossing.now.link crossing.now.bytes.now (Ip crossing.now.facts.now) }
    ensures inside { IsIn flow_law (C.fits conns.now) C.view pass.new }
    ensures view { GoesOn (record (C.view pass.old) { answered = (C.view pass.new).answered }) (C.view pass.new) }
    ensures does { Does (C.view pass.old) (C.view pass.new) (λ said. AsksQuoted model.now.alg_icmp (arrival_of crossing.now) crossing.now.facts.now said result) }
{
    if !model.alg_icmp {
        return None;
    }
    find_inner(rt, conns, pass, crossing)
}

/// Looks for the connection of the packet that an error quotes. Kept apart, so that a packet pays for none of it without the gateway.
#[inline(never)]
fn find_inner<R: Wait, C: Connections<FlowLaw>>(
    rt: &R,
    conns: &C,
    pass: &mut C::Pass,
    crossing: &Crossing,
) -> Option<Met>
    requires inside { IsIn flow_law (C.fits conns.now) C.view pass.old }
    requires decodes { Decodes crossing.now.link crossing.now.bytes.now (Ip crossing.now.facts.now) }
    ensures inside { IsIn flow_law (C.fits conns.now) C.view pass.new }
    ensures view { GoesOn (record (C.view pass.old) { answered = (C.view pass.new).answered }) (C.view pass.new) }
    ensures does { Does (C.view pass.old) (C.view pass.new) (λ said. AsksQuoted true (arrival_of crossing.now) crossing.now.facts.now said result) }
{
    decoded_has_room();
    let Some(inner) = inner_of(crossing.bytes, crossing.facts) else {
        return None;
    };
    let keys = KeyPair {
        own: inner_key(&inner, crossing.ifid),
        every: inner_key(&inner, IfId::EVERY),
    };
    let peek = peek_of(crossing.time, crossing.facts);
    find_either(rt, conns, pass, crossing.number, &keys, &peek)
}
