// Changes of a configuration while a run goes on: entries of its tables, and rules of its dynamic rulesets (npf.conf(5), "Tables"
// and "Groups"; npfctl(8)). Each gives the next configuration and leaves the old one as it is, with which packets go on being
// walked; the tables that don't change are shared with it, and no rule that stays is compiled again.
//
// `finding` finds what a name names. `entries` changes a table; `addition` and `removal` change a ruleset: `reading` reads a rule's
// text, `limit` counts for the limits, `change` says what becomes of the rules, in a copy of the model, `programs` keeps the
// programs of those that stay, and `next` lays both out. `shared` shares the tables. `laws`: each change comes to one answer. A
// configuration that takes over rules (npf_config_reload) finds tables, counts elements and shares tables by the same calls,
// and a class of packets is read by those of `text`.
//
// The contract in words: a change gives exactly the configuration that specs/Entries, specs/Additions and specs/Changes say, in which
// all else is as it was, or is refused for the first of its stages that has a fault; want of memory says nothing.
#![tactic(auto)]

mod addition;
mod change;
mod entries;
mod fault;
pub mod laws;
mod limit;
mod next;
mod programs;
mod removal;
mod ruleset;
pub mod shared;
mod text;

pub use addition::rule_add;
pub use entries::{table_add, table_rem};
pub use fault::ChangeFault;
pub use limit::model_elements;
pub use removal::{rule_flush, rule_rem};
pub use ruleset::table_place;
pub use text::{mean_rule, read_rule};
