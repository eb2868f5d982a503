// What a pass has of the pools, and the parts of the rule on it: connections and what passes are building, the pools' bits, what passes stored in
// their own places, locks, and turns. Each stays through steps that leave its words. The function does nothing: it is a theorem.
#![tactic(auto)]

mod laws;
mod pools;
mod turn;

pub use laws::lives_law;
pub use pools::{Note, PoolSide, StoredWord};
pub use turn::{Ahead, Said, Turn};
