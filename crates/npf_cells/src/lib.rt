// The words of the table without locks, and the rule that holds between any two steps on them.
//
// A table has an epoch, a reader word for each of its 66 reader places, a bit for each slot and each node, the places and locks of a
// trie, and the words of connections; docs/ARCHITECTURE.md draws them. Each call here is one atomic step on one of them, or a base
// move: making, splitting and joining passes. Epochs are those of Fraser, "Practical lock-freedom" (2004), section 5.2.3, with the
// second load of crossbeam-epoch: what a pin protects is fixed by an epoch that is loaded after it.
//
// The one contract: the rule of npf_cells_rule (IsCells), the conjunction of twelve parts (seats, epochs, pools, trie, connections, stored
// words, locks, turns, deaths, what killers know, notes, marks) over words, the slots' values and sides of the views, of which some serve two of them, and that a spent seat owns
// nothing. A kind of step proves what it changes, in the crates below this one (npf_cells_moves, npf_cells_takes, npf_cells_holds,
// npf_cells_turns, npf_cells_returns). What the rule says stands in npf_cells_rule's laws: a node has one owner at most and a slot one builder, a protected pass
// holds the epoch back, no pass raises it without counting it, and what stands where a key's path ends names the key's holder.
#![tactic(auto)]

mod cells;
mod due;
mod free;
mod hints;
mod hold;
mod kinds;
mod locks;
mod look;
mod marks;
mod moves;
mod notes;
mod pools;
mod private;
mod publish;
mod rule;
mod sight;
mod slots;
mod step;
mod told;
mod turns;
mod unlink;
mod words;

pub use cells::{CellPass, Cells};
pub use npf_cells_holds::Aim;
pub use npf_cells_leaves::{LoadedLeaf, Meeting, PathPlace, SeenCell, TrieSide};
pub use npf_cells_lives::{PoolSide, StoredWord, Turn};
pub use npf_cells_pins::{EpochSide, Pin};
pub use npf_cells_returns::mark_law;
pub use npf_cells_rule::{
    CellView, claim_law, count_law, death_law, note_law, protection_law, reader_law, trie_law,
};
pub use npf_cells_turns::TurnAct;
pub use npf_cells_words::{LAST_EPOCH, Layout, PHASE, Pool, READERS};
pub use npf_seats::SeatSide;
pub use rule::CellsRule;
