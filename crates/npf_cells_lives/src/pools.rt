// What a pass holds of the pools, and what it stored in what it holds.
use npf_cells_words::Pool;
use npf_core::{ConnId, Found};
use std::collections::LinkedList;

/// A word that a pass stored in one of its own places.
pub struct StoredWord {
    pub pool: Pool,
    pub place: u32,
    pub field: u32,
    pub value: u64,
}

/// A note of a connection that a pass is building, as it stored it, of a way of which the connection holds no key.
pub struct Note {
    pub slot: u32,
    pub field: u32,
    pub value: u64,
}

/// What a pass knows of the pools, and what it has of them.
pub struct PoolSide {
    /// How often it loaded each word of the nodes in a row, all bits set.
    pub sweeps: u64,
    /// How many words of the nodes, from the first on, it loaded so since it began the last row.
    pub row: u32,
    /// The pool word that its last step on one found.
    pub found: u64,
    /// The nodes that it owns.
    pub nodes: LinkedList<u32>,
    /// The nodes that it got back by clearing their marks, and whose state it hasn't freed yet.
    pub unfreed: LinkedList<u32>,
    /// The connections that it is building.
    pub builds: LinkedList<ConnId>,
    /// Those of their slots whose incarnation it hasn't stored yet.
    pub unstored: LinkedList<u32>,
    /// What it stored in its places since it last gave a node back or published anything for a key, the last first.
    pub stored: LinkedList<StoredWord>,
    /// The connections that it killed and hasn't let go yet.
    pub kills: LinkedList<ConnId>,
    /// The ways of those of which it gave the key up.
    pub gave_up: LinkedList<Found>,
    /// The connections that it reclaimed, whose first note still has its epoch.
    pub reclaims: LinkedList<ConnId>,
    /// Those whose first note it has set to 0 since.
    pub cleared: LinkedList<ConnId>,
    /// The greatest epoch with which it, or a pass that was joined into it, let a connection go, 0 where none did.
    pub dated: u64,
    /// The notes that it stored of ways of which its connections hold no key.
    pub notes: LinkedList<Note>,
}
