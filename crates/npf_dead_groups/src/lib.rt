// Which groups of a configuration no packet comes to.
//
// A packet is put to the groups in order, and a group without a matching rule leaves it to the next one (npf.conf(5), "Groups"). So a group is dead where
// the groups in front of it answer each packet to which it applies. All rules are put in their order of precedence (npf_precedence), and behind them
// each group as a rule that asks nothing but the group's direction and interface; of the packets that match it, one is looked for that no rule of the
// groups in front matches.
//
// The contract (specs/Comes): for each group a packet that there can be and that comes to it, or none exactly where the group is dead. Only the end of
// the steps comes besides, and want of memory.
#![tactic(auto)]

mod entries;
mod order;
mod question;

pub use question::groups_reached;
