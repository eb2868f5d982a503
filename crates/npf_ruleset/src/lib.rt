// The flat configuration: the rules of a model laid out one after another, each compiled to classic
// BPF, and walked fast.
//
// A flat rule has the program of its rule, and beside it a small row of conditions that each packet
// meets which the rule describes: the family, the protocols as a set of bits, and the hulls of the
// addresses and ports of both ends. What a rule is bound to by direction and interface stands there
// too, with what its ruleset is bound to. A walk that comes to a rule runs its program only where the
// row admits the packet: the program alone decides that the rule describes the packet. A program that
// tests nothing describes every packet, and isn't run.
//
// In a group the rules with `final` are tried upwards first, and, where none of them matched, the
// others downwards, so that the first match ends it (npf.conf(5), "Groups" and "Rules"). A group
// that doesn't apply is one step.
//
// Why a rule doesn't match a packet `misfit` tells: the first of its parts that the packet doesn't fit.
//
// The contract in words: a walk gives the place of the rule that decides on the packet by the
// configuration's meaning, and none exactly where no rule matches; and no part of a rule is told as
// unfit exactly where the rule matches. Each program is valid. A
// configuration is refused exactly for its first rule whose weight passes 4,096, or else exactly
// where the instructions of all its programs pass 524,288, with their number.
#![tactic(auto)]

mod addr_hull;
mod always;
mod binding;
mod builder;
mod compile;
mod config;
mod copy;
mod describes;
mod fault;
mod flat;
mod layout;
mod map_choice;
mod misfit;
mod numbers;
mod packet;
mod place;
mod port_hull;
mod protocol_set;
mod row;
mod tables;
mod walks;

pub use binding::{fits_dir, fits_on};
pub use builder::{assemble, build, instructions};
pub use config::Config;
pub use fault::BuildFault;
pub use flat::FlatRule;
pub use map_choice::map_for;
pub use misfit::{Part, applies_without_misfit, map_misfit, matches_without_misfit, rule_misfit};
pub use place::{Placed, count_of};
pub use walks::walk;
