// A configuration that is loaded in place of another while a run goes on, and takes over its dynamic rules (npf.conf(5), "Groups";
// npfctl(8), "Scripts").
//
// `reloading` is the whole work. `rulesets` finds the rulesets of the configuration before by their names, through one index, and `again`
// where its tables and procedures stand in the new file; `rule` says which rules are taken and how they then stand, `model` puts them into
// a copy of the file's model, and `limit` counts all rules together.
//
// The contract in words: what is loaded is the file's configuration with what specs/Taken says that it takes over, its rules compiled. It is
// refused as the file alone is, and then exactly where the limit of rules, elements or instructions is passed by both together. The
// configuration before stays as it is.
#![tactic(auto)]

mod again;
mod kept_rules;
mod limit;
mod model;
mod reloads;
mod rulesets;

pub use reloads::reload;
