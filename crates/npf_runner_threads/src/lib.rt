// Calls beside each other, of which those that find nothing to do take no thread.
//
// A thread takes longer to begin and to end than a call that has nothing to do. So the items are halved, each half is halved again, and a half goes to
// a new thread only where both have an item with work. What a call does is the same on any thread.
//
// The contract: `for_each_busy_mut` says of the items what `std::thread::for_each_mut` says: each is what a call with its place left. Which call runs
// on which thread no clause says.
#![tactic(auto)]

mod busy;
mod each;

pub use busy::{Busy, any_busy};
pub use each::for_each_busy_mut;
