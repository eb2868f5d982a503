// Why a configuration treats a packet as it does: what each group, each rule and each map says of it, in the order of inspection.
//
// A group is reached unless one in front of it answered, and applies unless it is bound to another direction or interface. The rules of a group
// that applies are asked one after another: a rule doesn't match, with the first of its parts that the packet doesn't fit, or it decides, or another
// one is told that decides in its place; behind a `final` rule that decides none is asked. Maps are asked in the order of the text until one applies,
// whatever rules decide: only a packet that passes is translated.
//
// The contract: what is told is `explanation` of specs/Explanation, which is written by npf_model's definitions of the rule that decides and of the map
// that applies. The laws say of it: exactly the rule that decides is told so, each overridden one matches in the group that answers, a part is told
// exactly where it is the first that the packet doesn't fit, and exactly the map that translates is told so.
#![tactic(auto)]

mod asked;
mod decider;
mod explanation;
mod laws;
mod maps;
mod rules;
mod told;

pub use explanation::explain;
pub use laws::{
    decides_exactly, map_applies_exactly, misfits_exactly, overridden_exactly, reached_exactly,
};
pub use told::{Explanation, GroupTold, MapTold, RuleTold, ToldGroup, Unasked};
