// The stages of a connection's life.

/// What a slot is at.
///
/// What can no longer be asked of a connection isn't kept: its seat once it is Live, its flow and its count once it is Dead.
#[derive(Clone, Copy, Debug, PartialEq, Eq)]
pub enum Stage<S> {
    /// Not claimed.
    Vacant,
    /// Claimed by the seat of this number, and not Live yet.
    Building { seat: u64 },
    /// Live, with its flow and the number of its steps: its start is the first. The count stands still at its type's end.
    Live { flow: S, steps: u64 },
    /// Killed, and not freed yet.
    Dead,
}
