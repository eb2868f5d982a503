// The connections of a run: who is in which slot, at which flow, and who holds which key, as one value.
//
// It is the state of the machine of connections (npf_core) in a form that a run can keep. All its memory is taken when it is made,
// and no call takes any later; what no connection needs yet stays unwritten. Each connection stands at the number of its slot; its
// keys stand at three places that belong to the slot, so that there is always room. A key is found by its bucket, which names 16
// places where it may stand (Knuth, "The Art of Computer Programming", 6.4), whatever the number of connections; only a bucket that
// once had more keys than that is searched at all places. The states are those of the stateful rules of npf.conf(5). A store knows no
// seats and no locks: it is the same value whether one thread has it or many take turns at it.
//
// The contract: each call says what it makes of each slot and each key (`specs/Store.antt`), and `laws` says that a store that
// represents a state of the machine answers as the machine does and then represents the state that the act leaves.
#![tactic(auto)]

mod connection;
mod hash;
mod held_keys;
mod keys;
pub mod laws;
mod phase;
mod steps;
mod store;

pub use held_keys::HeldKeys;
pub use phase::SlotPhase;
pub use steps::{due, step};
pub use store::Store;
