// What a pass knows of the trie.
use npf_cells_words::{Emptied, Marked, MetMark};
use npf_core::ConnId;
use npf_paths::{Cell, Lock, Place};
use npf_types::{Key, Way};
use std::collections::LinkedList;

/// A place of the trie that is on a key's path, at this level.
pub struct PathPlace {
    pub key: Key,
    pub level: u32,
    pub place: Place,
}

/// A leaf of the trie: the way of a connection's key, and the key and the incarnation that the words of its slot had.
pub struct LoadedLeaf {
    pub slot: u32,
    pub way: Way,
    pub key: Key,
    pub inc: u64,
}

/// What stood in a place of a key's path, at this level, when a pass loaded it.
pub struct SeenCell {
    pub key: Key,
    pub level: u32,
    pub place: Place,
    pub cell: Cell,
}

/// Where a key that a pass is to hold meets the leaf of another key: at this level of its path.
pub struct Meeting {
    pub key: Key,
    pub other: Key,
    pub level: u32,
}

/// What a pass knows of the trie.
pub struct TrieSide {
    /// Where the last node that it loaded in this stay leads.
    pub stands: Option<PathPlace>,
    /// The leaf that it loaded last in this stay.
    pub leaf: Option<LoadedLeaf>,
    /// The place that it loaded last, and what stood there.
    pub seen: Option<SeenCell>,
    /// The meeting that its last load of a place found, where that was to hold a key.
    pub meets: Option<Meeting>,
    /// The locks that it has.
    pub locks: LinkedList<Lock>,
    /// The connections that it was answered in this stay.
    pub answered: LinkedList<ConnId>,
    /// The nodes that it marked and hasn't let go.
    pub marks: LinkedList<Marked>,
    /// The node that it has locked and found empty so far.
    pub emptied: Option<Emptied>,
    /// The mark that it met last under a place's lock.
    pub met_mark: Option<MetMark>,
    /// How many places of the trie it loaded.
    pub places: u64,
    /// How many words of keys it loaded.
    pub words: u64,
    /// How often it stored in a place of the trie.
    pub published: u64,
    /// How many nodes it published.
    pub grown: u64,
    /// How many nodes it got back, by clearing their marks.
    pub regained: u64,
}
