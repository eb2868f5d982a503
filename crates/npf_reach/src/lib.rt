// Which packets some lists of rules and maps decide on, of all packets that there can be.
//
// Products (npf_products) are turned into boxes of cells for each kind of packets once. `Packets` are those of some regions of cells of each
// kind: all of them to begin with, and ever fewer as they are narrowed to those on which a place of a list decides.
//
// The contract (specs/Packets): packets that are narrowed are exactly those of the old ones on which the decider decides, by what the products
// mean; and `packet` gives one of them, which there can be, or none exactly where there is none, or ends because its steps were spent.
// `is_alike` says of two products that they hold of the same ones.
#![tactic(auto)]

mod cells;
mod kind_cells;
mod packets;
mod part;

pub use cells::cells_of;
pub use kind_cells::KindCells;
pub use packets::Packets;
