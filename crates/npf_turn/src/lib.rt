// Connections of the table without locks under the turns of their slots: a turn is waited for, and a connection is started, stepped or killed
// under it. A connection that a pass killed is its own until it lets it go, after it gave up its keys; two epochs later any pass may free it.
// A node of the trie in which nothing stands any more after a key was given up is taken off, and got back two epochs later.
//
// The contract: each call makes the entry that it names, and no other, with the reply that the connection then gave, and has no turn before
// and after. It may wait for a turn that another pass has.
#![tactic(auto)]

mod codes;
mod endings;
mod laws;
mod letting_go;
mod locks;
mod reclaims;
mod regains;
mod taking_off;
mod turn;
mod work;

pub use endings::{end_key, end_keys, end_killed};
pub use laws::kill_law;
pub use letting_go::let_go;
pub use locks::{lock, lock_hung, unlock};
pub use reclaims::reclaim;
pub use regains::{clear_mark_at, regain};
pub use turn::wait_turn;
pub use work::{expire, kill, start, step};
