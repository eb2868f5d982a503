// Elaboration: what the tree of a configuration means (npf.conf(5)), statement by statement: its settings, rules, groups, maps,
// tables and procedures, of the values that npf_expand_values says.
//
// Values and faults are two total functions of the tree (specs/Elaborates). The contract of `expand`: a tree without a fault is
// its model, and any other is refused with its first fault in the text, of two at one place with that of the smaller number.
// `expand_rule` reads one rule so, beside a model that is there.
#![tactic(auto)]

mod elaborate;
mod filter;
mod group;
mod lone_rule;
mod map;
mod message;
mod met;
mod procedure;
mod rule;
mod settings;
mod table;
mod text;

pub use elaborate::expand;
pub use lone_rule::expand_rule;
