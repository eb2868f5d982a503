// What npfctl does: from the words of the command line and the bytes of its files to the lines of a report, a status and the line of a fault.
//
// Each command is a few steps, the first fault of which is answered: `run` prepares a run, puts its fragments together (`fragments`), loads
// its connections, plays it, puts and writes what it makes, and saves its connections (`saves`);
// `inspection` loads a configuration and puts what is to be seen of it; `reasons` puts what is to be said of its first fault; `questions` puts the answer to
// what is asked of it, `checks` which expectations it doesn't meet, `lints` what in it does nothing, and `comparisons` where another
// configuration differs; `generation` runs a generated input from files in memory (`generated_files`); `top` gives the status, and puts the line of a fault.
//
// The contract is that of `npfctl_top`. With status 0 what the words say was done (specs/Top): for a run, what its files say was prepared,
// and played so that the history of the table's pass explains each packet's outcome; its report was put, and what passed was written. Any
// other status is that of the first fault met, with its cause (specs/Faults), and its line was put on the error sink.
#![tactic(auto)]

mod checks;
mod comparisons;
mod findings;
mod flushed;
mod fragments;
mod generated_files;
mod generation;
mod inspection;
pub mod laws;
mod lints;
mod programs;
mod questions;
mod reasons;
mod run;
mod saves;
mod top;

pub use findings::Finding;
pub use top::{Status, npfctl_top};
