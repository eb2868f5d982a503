// The fragments of a run, put together by workers before its first phase.
//
// The workers gather the pieces among the packets at one time in npf_reass' object, each those of
// its share of the packets from a pass of its own, so that those of one datagram are of one class;
// they decide the classes, each of them by one worker; and the packets follow from the sets of all
// classes.
//
// The contract: `reassemble` gives the packets of `Whole`, whatever the number of workers and the
// order in which they offer. A law says that a piece is in one set alone. No clause says what the body
// does besides: without fragments it takes no memory and starts no thread.
#![tactic(auto)]

mod gather;
mod laws;
mod offer;
mod run;
mod scan;
mod share;

pub use laws::one_set;
pub use run::reassemble;
