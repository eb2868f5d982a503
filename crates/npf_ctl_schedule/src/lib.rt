// What a script asks of a run: how much of each thing that a run may have only so many of, the interfaces that its captures name, and its
// phases with their packets and commands (docs/npfctl.8, "Scripts").
//
// `count` counts lines, `interfaces` and `schedule` read them; `part` reads the lines of one phase. `laws`: all packets of a run are in its
// phases, and its publications come in the order of its configurations, so that a schedule may be played.
//
// The contract: each is the function of the lines that specs/Schedule has.
#![tactic(auto)]

mod count;
mod interfaces;
pub mod laws;
mod part;
mod phases;

pub use count::{captures_in, changes_in, phases_in};
pub use interfaces::run_interfaces;
pub use phases::schedule;
