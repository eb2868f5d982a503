// How a connection's flow goes on from packet to packet, and when it runs out: the law of the stateful rules of npf.conf(5)
// that a table of connections keeps.
//
// A flow of TCP goes by the law of segments (npf_tcp), which accepts or refuses each. One of another protocol has no state of
// its own but whether it was answered, as NetBSD's npf follows UDP and ICMP, and accepts every packet. An accepted packet is
// translated the way it goes; a refused one changes nothing. One that only peeks passes and changes nothing. What is idle for its
// timeout is due: each flow has timeouts of its own, from its opening on.
//
// The contract: `FlowLaw` is the law `flow_law`, whose parts are given by cases over whole numbers: what a packet makes of each
// kind, that no packet takes the last time back, and that `due` holds exactly where the flow was idle for its timeout, and never
// at a time before the last packet's. `open_flow` makes the flow that a packet opens. `laws` has what follows.
#![tactic(auto)]

mod flow;
mod law;
pub mod laws;
mod step;
mod timeout;

pub use flow::{Flow, FlowKind, FlowSettings, open_flow};
pub use law::FlowLaw;
pub use step::{FlowArg, FlowReply};
pub use timeout::due;
