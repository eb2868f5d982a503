// The faults that a configuration of npf.conf(5) can have, each with its number and its name, and which of some faults is answered: the
// one that stands first in the text, and of those at one place the one with the smallest number.
//
// The stages behind the grammar define all faults of a text as a list, whose order means nothing, and keep the first one as
// they go. The contract: a fault's number and name are those of one table (specs/Fault); `earlier` chooses of two, and `laws` says
// that what is chosen so is the first of the list, and that a list without a first fault is empty.
#![tactic(auto)]

mod fault;
mod first;
pub mod laws;

pub use fault::{ConfFault, Excess, Fault, Refused};
pub use first::{earlier, fault_if};
