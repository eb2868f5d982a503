// The steps on the pools' words, and the loads and stores of a pass's own words: what each asks and tells, and that it keeps the rule. The
// function does nothing: it is a theorem.
#![tactic(auto)]

mod laws;

pub use laws::takes_law;
