// What a pass knows.
use crate::offer::{Offer, ReassSize};
use npf_pieces::Piece;
use npf_seats::SeatSide;
use std::collections::LinkedList;

/// What a pass knows: besides what it has seen, the class whose turn it has, and what the slot of that class had when it took the
/// turn. No value of it is made.
pub struct ReassView {
    pub seats: SeatSide<ReassSize, Offer>,
    pub turn: Option<u32>,
    pub held: LinkedList<(u64, Piece)>,
}
