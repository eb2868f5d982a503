// What a pass remembers so that it needn't search.
use npf_cells_words::{Layout, Pool, READERS};

/// What a pass remembers so that it needn't search. Any numbers are hints, so no clause speaks of them.
#[derive(Clone, Copy, Debug, PartialEq, Eq)]
pub(crate) struct Hints {
    /// In which word of each pool it found a free place last: there its next search begins.
    pub(crate) slots: u32,
    pub(crate) nodes: u32,
    /// The state that it gave the node which it let go last, 2^63 and an epoch; 0 where none waits to come back.
    pub(crate) left: u64,
}

impl Hints {
    /// Those of a pass that is made with this reader place: each place has words of its own, where there are enough.
    pub(crate) fn of_reader(layout: Layout, reader: u32) -> Hints {
        Hints {
            slots: (layout.pool_words(Pool::Slots) / READERS).wrapping_mul(reader),
            nodes: (layout.pool_words(Pool::Nodes) / READERS).wrapping_mul(reader),
            left: 0,
        }
    }
}
