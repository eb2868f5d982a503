// Where the words of a table without locks lie, and which of them are one word.
//
// A table has an epoch, a reader word for each of its 66 reader places, a bit for each slot and each node, the places and locks of a trie, and
// the words of nodes and of connections; docs/ARCHITECTURE.md draws them.
#![tactic(auto)]

mod laws;
mod layout;
mod mark;

pub use laws::words_law;
pub use layout::{
    EPOCH, FIRST_EPOCH, IDLE, INCARNATION, LAST_EPOCH, Layout, PARENT, PHASE, Pool, READERS, STATE,
    TURN, key_field, note_field, place_code, reader_place,
};
pub use mark::{Emptied, Marked, MetMark};
