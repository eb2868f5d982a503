// What a pass knows.
use npf_core::{ConnId, Entry};
use npf_seats::SeatSide;
use std::collections::LinkedList;

/// What a pass knows. No value of it is made.
pub struct View<S, A, R> {
    pub seats: SeatSide<u32, Entry<S, A, R>>,
    pub turn: bool,
    pub entered: bool,
    pub answered: LinkedList<ConnId>,
    pub builds: LinkedList<ConnId>,
    /// How many passes are entered, while it has the turn.
    pub crowd: u64,
}
