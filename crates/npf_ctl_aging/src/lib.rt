// The phases of a run whose connections age as time passes: an expiry stands in front of each packet that is the first one behind a
// multiple of a period.
//
// `tick` says which packets follow a multiple, and counts them; `part` parts one phase in front of these packets, and `phases` all of them.
// `laws`: the parts have all packets, publish in order, and are two more for each packet that follows a multiple.
//
// The contract: each is the function of the packets' times and of the phases that specs/Aging has.
#![tactic(auto)]

pub mod laws;
mod part;
mod phases;
mod tick;

pub use phases::aged;
pub use tick::count_ticks;
