// Which cells some boxes decide on, where the first box of a list that has a cell decides on it.
//
// A region is the cells of a box that are in none of some others. A decider is a place of a list of boxes, and narrowing a region by it leaves
// the cells on which this place decides. So a question of several lists, as which pairs of their places decide on one cell, is narrowing by one
// place after the other and then asking for a cell.
//
// The contract (specs/Region): a region that is narrowed has exactly the cells of the old one on which the decider decides; and `cell` gives a
// cell of a region, or none exactly where it has none, or ends because its steps were spent.
#![tactic(auto)]

mod decider;
mod region;

pub use decider::Decider;
pub use region::Region;
