// One dimension of packets, the numbers from 0 to a top, cut into the classes that some sets of numbers tell apart. Each set is given by
// ranges. Between two ends of ranges no set changes, so these intervals are divided into classes, set by set.
//
// The contract (specs/Dimension): a set has all numbers of a class or none, so that two numbers of one class are told apart by no set; each
// number up to the top has a class, and each class a number. That the classes are as few as can be is a matter of speed: no clause says so.
#![tactic(auto)]

mod dimension;
mod merge;
mod partition;
mod range;
mod set_bits;
mod span;
mod start;

pub use dimension::Dimension;
pub use range::Range;
pub use set_bits::SetBits;
