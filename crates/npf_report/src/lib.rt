// The report of a run: a line for each packet, and the total line (docs/npfctl.8, "The report").
//
// `lines` writes the line of a packet, `crossed` its interface and direction, `outcomes` what it says of the packet's outcome, and
// `totals` the last line. Each is written in place in a page of `LINE_ROOM` bytes, from its end to its beginning (`page`).
//
// The contract: the bytes of a line are those that the table of the report gives for the packet's number, its interface, its
// direction and its outcome (specs/LineText, specs/OutcomeText), and those of the total line the counts of each kind of outcome
// (specs/TotalText). A line that is written into a page stands in front of what stood there, and takes no memory.
#![tactic(auto)]

mod crossed;
mod lines;
mod outcomes;
mod page;
mod totals;

pub use crossed::Crossed;
pub use lines::{LINE_ROOM, line, write_line};
pub use totals::{Counts, total, write_total};
