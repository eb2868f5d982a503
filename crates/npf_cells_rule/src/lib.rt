// The rule of the table without locks, from its parts: what each pass knows (`CellView`, a side for each part), and that a state of the table
// keeps all twelve parts (`IsCells`). A step that leaves a region of words leaves the parts over it. The functions do nothing: each is
// a theorem.
#![tactic(auto)]

mod laws;
mod view;

pub use laws::{claim_law, count_law, death_law, note_law, protection_law, reader_law, trie_law};
pub use view::CellView;
