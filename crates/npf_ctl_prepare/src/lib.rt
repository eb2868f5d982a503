// All that a run is prepared from, from the names of its files to what is played, in the order of the work: the file of interfaces, the
// configuration, the script or a capture alone, its limits, its captures, and the changes of the configuration (docs/npfctl.8, "The
// order of work"). The first fault that is met ends it.
//
// `prepare` is the whole work, and `orders` reads what the run is to do; `limits` tests how much of it there is, `captures` gathers the
// packets, `configurations` makes the configurations, `reloads` those of files, `interfaces` gives the first one the numbers of the run's interfaces, and
// `phases` makes the phases of the packets.
//
// The contract: what is prepared is a plan that the stages of specs/Prepares may come to, or the first fault is told, and want of memory
// says nothing; what is prepared may be played.
#![tactic(auto)]

mod captures;
mod configurations;
mod interfaces;
pub mod laws;
mod limits;
mod orders;
mod phases;
mod prepare;
mod reloads;

pub use prepare::{Prepared, RunFiles, prepare_run};
