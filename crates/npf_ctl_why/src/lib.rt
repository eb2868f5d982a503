// What `npfctl why` says of a fault of a configuration: its line, the line of the text at its place, a sentence, what could stand there, and
// known names that are near.
//
// The contract: the explanation is the fault's line, and then, where the file was read, the parts that specs/Text has for the text;
// only want of memory comes besides. Of a map that can't be the sentence is that of a condition which holds of the map at the place (`laws`).
#![tactic(auto)]

mod excerpt;
pub mod laws;
mod left_out;
mod listed;
mod map;
mod reason;
mod text;

pub use left_out::explanation_of_left;
pub use text::explanation;
