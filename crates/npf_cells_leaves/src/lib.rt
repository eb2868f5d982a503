// What a pass knows of the trie, and the part of the rule on it: who holds a key stands where the key's path ends, what a pass loaded stays as it
// was, and both stay through steps that leave what paths meet, through a leaf that fills an empty place, through new nodes that take
// a leaf's place, and where an emptied node is taken off. The function does nothing: it is a theorem.
#![tactic(auto)]

mod laws;
mod trie;

pub use laws::leaves_law;
pub use trie::{LoadedLeaf, Meeting, PathPlace, SeenCell, TrieSide};
