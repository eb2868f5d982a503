// How passes are split and joined, and the steps on the epoch and on the readers: what each asks and tells, and that it keeps the rule. The
// function does nothing: it is a theorem.
#![tactic(auto)]

mod laws;

pub use laws::moves_law;
