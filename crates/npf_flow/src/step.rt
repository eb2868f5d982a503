// A step of a flow. What makes one in place is inlined, so that its answer isn't copied from call to call.
//
// No packet of TCP lacks a segment; a flow of TCP refuses one that does, so that the law says something at every argument.
ghost use Rattle.std.specs.Prelude.{◌≡◌};
ghost use Rattle.npf_flow.specs.Flows.{accepts, kind_after, is_backward, moves_on, next_flow, change_of, flow_reply};

use crate::flow::{Flow, FlowKind};
use npf_tcp::step_tcp;
use npf_types::{Action, Change, Segment, Way};

/// What a packet brings to a step: its time in nanoseconds, its TCP segment, if it has one, and whether it only peeks, as an ICMP
/// error (RFC 792) does that quotes a packet of the flow. Flows of other protocols take no notice of a segment.
#[derive(Clone, Copy, Debug, PartialEq, Eq)]
pub struct FlowArg {
    pub now: u64,
    pub seg: Option<Segment>,
    pub peek: bool,
}

/// What a step answers: whether the packet passes, the number of the packet that opened the flow, and what translates
/// the packet and is done to it.
#[derive(Clone, Copy, Debug, PartialEq, Eq)]
pub struct FlowReply {
    pub pass: bool,
    pub opener: u64,
    pub change: Change,
    pub action: Action,
}

/// The flow after a packet that goes this way, and what the packet is answered. A refused packet changes nothing, nor does one that
/// only peeks, which always passes.
pub fn step_flow(flow: &Flow, way: Way, arg: FlowArg) -> (Flow, FlowReply)
    ensures next { result.0 ≡ next_flow flow.now way arg }
    ensures answer { result.1 ≡ flow_reply flow.now way arg }
{
    let mut next = *flow;
    let reply = advance_flow(&mut next, way, arg);
    (next, reply)
}

/// The same in place.
#[inline(always)]
pub fn advance_flow(flow: &mut Flow, way: Way, arg: FlowArg) -> FlowReply
    ensures next { flow.new ≡ next_flow flow.old way arg }
    ensures answer { result ≡ flow_reply flow.old way arg }
{
    let (kind, accepted) = step_kind(flow.kind, way, arg.seg);
    let reply = FlowReply {
        pass: arg.peek || accepted,
        opener: flow.opener,
        change: change_of(flow, way),
        action: flow.action,
    };
    if !arg.peek && accepted {
        flow.kind = kind;
        flow.last = flow.last.max(arg.now);
    }
    reply
}

/// The kind after a packet, and whether the packet is accepted.
#[inline(always)]
fn step_kind(kind: FlowKind, way: Way, seg: Option<Segment>) -> (FlowKind, bool)
    ensures kind { result.0 ≡ kind_after kind way seg }
    ensures pass { result.1 ≡ accepts kind way seg }
{
    match (kind, seg) {
        (FlowKind::Tcp(state), Some(seg)) => {
            let (state, accepted) = step_tcp(&state, way, &seg);
            (FlowKind::Tcp(state), accepted)
        }
        (FlowKind::Tcp(_), None) => (kind, false),
        (FlowKind::Other { answered }, _) => {
            let answered = answered || is_backward(way);
            (FlowKind::Other { answered }, true)
        }
    }
}

#[inline(always)]
fn is_backward(way: Way) -> bool
    ensures { result ≡ is_backward way }
{
    matches!(way, Way::Backward)
}

#[inline(always)]
fn change_of(flow: &Flow, way: Way) -> Change
    ensures { result ≡ change_of flow.now way }
{
    if is_backward(way) {
        flow.back
    } else {
        flow.there
    }
}
