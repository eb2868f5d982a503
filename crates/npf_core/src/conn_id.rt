// The identity of a connection.

/// The identity of a connection: its slot, and its incarnation there. Incarnations count from 1 per slot.
#[derive(Clone, Copy, Debug, PartialEq, Eq, PartialOrd, Ord, Hash)]
pub struct ConnId {
    pub slot: u32,
    pub inc: u64,
}
