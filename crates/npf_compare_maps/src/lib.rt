// For which packets that two configurations both pass, and pass alike, different maps write different things.
//
// A map counts only for what passes. The rules of both configurations, in their order of precedence (npf_precedence), and their maps in each direction are
// turned into boxes of cells once (npf_reach), with the tables of both one behind the other. For each pair of maps, or of a map and none, that write
// different things in a direction, the packets that both translate are looked at, and one is looked for that both configurations pass alike.
//
// The contract (specs/MapDifference): each pair of maps by which a packet that both pass alike gets different things written is told once, with such a
// packet, in order, and no other is; so where none is told, the maps of both write the same into each packet that both pass alike. Only the end of the steps
// comes besides, and want of memory.
#![tactic(auto)]

mod comparison;
mod difference;
mod law;
mod passed;
mod products;
mod question;
mod same;
mod side;

pub use difference::MapDifference;
pub use law::untold_is_same;
pub use question::{MapSide, compare_maps};
