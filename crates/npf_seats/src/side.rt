// What each pass of a shared table knows of seats.
use std::collections::LinkedList;

/// Who a pass of an object is, what it has seen, and which of the object's places it owns.
pub struct SeatSide<K, E> {
    /// What every seat of the object knows of it.
    pub about: K,
    pub number: u64,
    /// Whether it has its number: one that was split off gets it by its first step.
    pub lives: bool,
    pub history: LinkedList<E>,
    pub readers: LinkedList<u32>,
    pub joined: LinkedList<u64>,
    /// The history of a pass that was joined into this one, and the numbers that came with it, until the next step.
    pub told: LinkedList<E>,
    pub theirs: LinkedList<u64>,
    /// Numbers that aren't this pass's, while it has none.
    pub others: LinkedList<u64>,
}
