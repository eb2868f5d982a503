// The packets of a run: those of its captures, which are read one after another, and then all of them by time.
//
// `trace` reads a capture of a file and cuts it into its packets, which stay where they are, `limit` tests how much of captures a run may
// have, `order` puts packets by time, and `arrivals` gathers captures.
//
// The contract: what is gathered is what specs/Arrivals has of the captures, or the first test that one of them fails is told with its
// file; it is no more than a run may have, of packets that may be handled and written (specs/Within).
#![tactic(auto)]

mod arrivals;
mod limit;
mod order;
mod trace;

pub use arrivals::{Arrivals, Captures};
