// The ports that a translation may draw at an address, in the order in which they are tried: from a
// first candidate up to the range's end, then from the range's beginning up to the candidate. The
// search for a free port that goes on from a first choice is that of RFC 6056 section 3.3.1; which
// port is free is for the caller to find out.
//
// The contract: contracts see a `PortDraw` as the list of the ports that are left. `candidates`
// makes the list (specs/Candidate) and `next` takes its front. Where the first candidate lies in the
// range, each port of the range stands in the list once and no other does.
#![tactic(auto)]

mod draw;
pub mod laws;
mod run;

pub use draw::{PortDraw, candidates};
