// The rules of a configuration as one list, of which the first that matches a packet decides.
//
// A configuration's text has groups, rules with `final` and rulesets, and so an order of its own (npf.conf(5), "Groups" and "Rules"): of a
// group the first match with `final` decides, or else the last match, and without a match the next group is asked. Questions of what a rule
// set does to every packet are put to one list instead, in which what stands in front decides.
//
// The contract: `in_order` gives that list, `rules_of` the rules of one group as they are inspected, and the law of precedence says that
// the rule which decides by the configuration's meaning is the first of the list that matches. Each rule is in it once, and none is copied:
// an entry refers to its rule.
#![tactic(auto)]

mod entry;
mod laws;
mod order;

pub use entry::RuleEntry;
pub use laws::{each_rule_once, first_match_decides};
pub use order::{in_order, rules_of};
