// Many passes of one table of connections for a while: passes are split off a pass, others work with them, and the pass takes them
// all in again.
//
// The contract: `split_off` and `take_in` say what each pass shows after them, and `laws` what stands at the end. The pass's history
// went on by entries of the passes that were split off alone, which stand there as each of these had seen its own. Both are
// proved from the contract of `Connections`, whatever the table.
#![tactic(auto)]

pub mod laws;
mod parts;
mod whole;

pub use parts::split_off;
pub use whole::take_in;
