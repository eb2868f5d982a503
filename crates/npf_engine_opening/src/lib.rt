// Opens a connection for a packet that a stateful rule or a dynamic map of npf.conf(5) passes, or gives it up for a cause that
// the table has shown.
//
// A connection is claimed, takes its keys, and is started with its flow. Its keys are that of the packet, that of a port which a
// map draws at its address, and that of the answers to the translated packet. A key may have another holder: then the packet is
// a step of the connection that opened first, the next port is tried, or the connection is given up.
//
// The contract: `open` says to the table what `OpensConnection` describes, and nothing else: which acts are asked in which order,
// what each was answered, and what becomes of the packet. It holds for every table, since it is proved from the trait
// `Connections` alone.
#![tactic(auto)]

mod attempt;
mod draw;
mod opening;
mod start;

pub use attempt::{Attempt, Opened, Refusal};
pub use opening::open;
