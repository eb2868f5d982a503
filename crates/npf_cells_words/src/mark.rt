// What a pass knows of emptied nodes and of their marks.
use npf_paths::Place;
use std::collections::LinkedList;

/// A node that a pass marked, and what its parent word says.
pub struct Marked {
    pub node: u32,
    pub parent: u64,
    /// Whether the mark stands in the place that the parent word names.
    pub placed: bool,
}

/// A node that a pass has locked, knows to hang, and found empty in these places; and its parent word, once loaded.
pub struct Emptied {
    pub node: u32,
    pub parent: Option<u64>,
    pub digits: LinkedList<u32>,
}

/// The mark of a node that a pass saw in a place under the place's lock, and the epoch with which the node was let go, once loaded.
pub struct MetMark {
    pub node: u32,
    pub place: Place,
    pub left: Option<u64>,
}
