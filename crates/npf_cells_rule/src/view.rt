// All that a pass knows.
use npf_cells_leaves::TrieSide;
use npf_cells_lives::{PoolSide, Turn};
use npf_cells_pins::EpochSide;
use npf_core::Entry;
use npf_seats::SeatSide;

/// What a pass knows, a side for each part of the rule that has one. No value of it is made.
pub struct CellView<S, A, R> {
    pub seats: SeatSide<u32, Entry<S, A, R>>,
    pub epochs: EpochSide,
    pub pools: PoolSide,
    pub trie: TrieSide,
    /// The turn that it has, if any.
    pub turn: Option<Turn<S>>,
}
