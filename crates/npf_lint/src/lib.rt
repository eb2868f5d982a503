// Which rules of a configuration decide on no packet, and which change nothing, each with why.
//
// A rule may stand in a configuration and answer nothing: no packet that there can be matches it where it stands, or others answer each one that does. And
// one that answers some may be without effect: others, or none, would do the same with each of them. Rules are put in their order of precedence
// (npf_precedence), all packets are looked at as cells (npf_reach), and of each rule's packets one is looked for on which it decides, and then one which
// the rules behind it would treat otherwise.
//
// The contract (specs/Finding): for each rule a packet that has it for its answer and would be treated otherwise without it; or which rules would answer
// its packets, and treat each alike; or that no packet matches it; or the rules of which each packet that matches it has one for its answer. It speaks of
// the tables as they are. Only the end of the steps comes besides, and want of memory.
#![tactic(auto)]

mod found;
mod order;
mod products;
mod question;
mod reached;

pub use found::{Replacement, RuleFinding};
pub use products::{alone, products_of, span_of};
pub use question::lint;
