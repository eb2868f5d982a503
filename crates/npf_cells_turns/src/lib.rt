// Kinds of steps on turns and on words that turns guard: a turn is got, and given up with an act that its connection takes; all of the history is
// seen; a state, a phase, a note or a parent is loaded. Each keeps the rule, and tells what it says. The functions do nothing: each is
// a theorem.
#![tactic(auto)]

mod act;
mod laws;

pub use act::TurnAct;
pub use laws::turns_law;
