// Loading a configuration: from a text of npf.conf(5) and the files that it names to the flat configuration that packets are
// walked through.
//
// `text` runs the stages of the language, `tables` reads the tables' files in the order of the text, `rules` compiles, and tells
// what is refused there at the rule's place, which `rule_places` finds. The first fault that is met is answered.
//
// The contract in words: what is loaded has the model that the text means, and in each table the entries of its file. A fault is
// told exactly where the first stage, table or rule that has one says so; a file that isn't read is told at its name, and want of
// memory never as a file's. A refused call leaves nothing behind but what was counted of reads.
#![tactic(auto)]

mod fault;
pub mod laws;
mod loads;
mod rule_places;
mod rules;
mod tables;
mod text;

pub use fault::LoadFault;
pub use loads::{load, load_placed};
