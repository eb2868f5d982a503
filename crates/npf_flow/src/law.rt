// The law of flows as a table of connections takes it.
ghost use Rattle.npf_flow.specs.Flows.{flow_law};

use crate::flow::Flow;
use crate::step::{FlowArg, FlowReply, advance_flow, step_flow};
use crate::timeout;
use npf_core::Law;
use npf_types::Way;

/// The law of the flows of connections.
pub struct FlowLaw;

impl Law for FlowLaw {
    type State = Flow;

    type Arg = FlowArg;

    type Reply = FlowReply;

    ghost meaning = { flow_law };

    fn step(state: &Flow, way: Way, arg: &FlowArg) -> (Flow, FlowReply) {
        step_flow(state, way, *arg)
    }

    #[inline(always)]
    fn advance(state: &mut Flow, way: Way, arg: &FlowArg) -> FlowReply {
        advance_flow(state, way, *arg)
    }

    fn due(state: &Flow, now: u64) -> bool {
        timeout::due(state, now)
    }
}
