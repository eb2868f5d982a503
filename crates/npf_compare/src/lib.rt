// Which packets two configurations treat unlike, but for what a map writes.
//
// The rules of both are put in their order of precedence (npf_precedence), and all packets are looked at as cells of both at once (npf_reach), with the tables
// of one behind those of the other. For each pair of an old rule and a new one that do not do the same, a packet is looked for on which the one decides by the
// old configuration and the other by the new one; where no rule decides, none stands in the rule's place. Rules that both have, which hold of the same
// packets and do the same, and stand in the same order, are found first (src/common): where both deciders of a packet are such, they are one, since the first
// match is in front of each other match in both orders. So only pairs of which one rule isn't common are asked.
//
// The contract (specs/Difference): each pair of deciders that treats a packet otherwise is told once, with such a packet that there can be, in the order of
// inspection, and no other is. The end of the steps comes besides, and want of memory. A law says that without a difference all packets are treated alike.
#![tactic(auto)]

mod asked;
mod both;
mod common;
mod compare;
mod difference;
mod law;
mod places;
mod products;
mod side;
mod told;

pub use compare::compare_rules;
pub use difference::RuleDifference;
pub use law::no_difference_is_alike;
