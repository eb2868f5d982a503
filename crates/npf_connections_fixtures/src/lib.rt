// The kinds of tables of connections that there are, for tests: what is generic over `NewTable` is
// put to each of them.
//
// The contract: a table is new, with its first pass. Hashes of the tests' own stand beside it.
#![tactic(auto)]

mod hash;
mod table;

pub use hash::OneHash;
pub use table::NewTable;
