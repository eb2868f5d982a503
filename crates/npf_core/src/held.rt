// What a hold is answered. A reply of the machine is the very answer of the call.
use crate::found::Found;

/// What a connection that asks for a key is answered.
#[derive(Clone, Copy, Debug, PartialEq, Eq)]
pub enum Held {
    /// The connection holds the key.
    Done,
    /// The key has this holder.
    Taken(Found),
    /// The table has no node left to keep the key in. The machine itself never answers so.
    NoNode,
}
