// What a command reads, each from files to a value or to the first fault that is met.
//
// `file` reads a whole file, `interfaces` the file of a run's interfaces, `loading` a configuration with the tables' files that it
// names, and `source` says what the second file of a run is: a capture or a script.
//
// The contract: each answer is one that its stage may come to (specs/), and want of memory says nothing of the files. A stage
// speaks of the files before a longer work and after it, so a caller may take the moments around all of its calls.
#![tactic(auto)]

mod file;
mod interfaces;
pub mod laws;
mod loads;
mod source;
mod tap;

pub use file::{read_file, text_of};
pub use interfaces::{interfaces_of, read_interfaces};
pub use loads::{load_alone, load_file, load_text, told_fault};
pub use source::{RunSource, read_source};
pub use tap::NamedTap;
