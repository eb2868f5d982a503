// What a pass is after at a place of the trie.
use npf_core::ConnId;
use npf_types::{Key, Way};

/// What a pass loads a place of the trie for, or stores in one.
#[derive(Clone, Copy, Debug, PartialEq, Eq)]
pub enum Aim {
    /// To find who holds the key, for the packet of this number.
    Look { n: u64, key: Key },
    /// To hold the key for a connection that the pass is building, as its key of that way.
    Hold { id: ConnId, key: Key, way: Way },
}
