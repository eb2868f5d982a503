// The interfaces that a question of a configuration is about: those of the file of interfaces, and behind them each other one that is named, by the
// configuration or by the question. All others are alike to it: no name that it has is theirs.
//
// The contract: `model_names` has each name that a model binds a group, a ruleset, a rule or a map to, and `with_names` puts each of some names that no
// interface of a list has behind that list, once, without addresses.
#![tactic(auto)]

mod names;

pub use names::{model_names, with_names};
