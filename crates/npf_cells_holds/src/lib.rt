// The steps on the places of the trie, on locks and on the words of keys: what each asks and tells, and that it keeps the rule. The
// function does nothing: it is a theorem.
#![tactic(auto)]

mod aim;
mod laws;

pub use aim::Aim;
pub use laws::holds_law;
