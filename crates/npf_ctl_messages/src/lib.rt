// What npfctl says of the first fault that a command met: the status that it ends with, and one line on its error output.
//
// A line begins with the name of the program. Where the fault is at a place of a file it goes on with the file and the place,
// and then with the fault's number and name; where something passes its greatest number, with what it is, how many of it there
// are, and the most that is taken (docs/npfctl.8, "EXIT STATUS").
//
// The contract: the status and the line are those that the definitions name, for each fault, unless memory for the line runs
// out.
#![tactic(auto)]

mod fault;
mod limit;
mod messages;
mod numbered;

pub use fault::{CommandFault, LineFault, Quantity, SavedRefusal};
pub use limit::{MAX_PAIRS, MAX_TICKS, MAX_WITNESSES};
pub use messages::message;
