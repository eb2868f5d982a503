// What the last connection of a slot is at.

/// What the last connection of a slot is at.
#[derive(Clone, Copy, Debug, PartialEq, Eq)]
pub enum SlotPhase<S> {
    /// It isn't claimed.
    Vacant,
    /// It is claimed, and not Live yet. Who builds it isn't kept.
    Building,
    /// It is Live, with its flow and the number of its steps: its start is the first. The count stands still at its type's end.
    Live { flow: S, steps: u64 },
    /// It is killed, and not freed yet.
    Dead,
}
