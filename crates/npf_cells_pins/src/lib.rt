// How passes pin the epoch, and the part of the rule on it: what a protected pass keeps the epoch from, and what a scan of the readers shows.
//
// Epochs are those of Fraser, "Practical lock-freedom" (2004), section 5.2.3, with the second load of crossbeam-epoch. The function does
// nothing: it is a theorem.
#![tactic(auto)]

mod laws;
mod pin;

pub use laws::pins_law;
pub use pin::{EpochSide, Pin};
