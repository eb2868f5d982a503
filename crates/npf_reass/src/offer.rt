// What is offered, and where it lies.

use npf_pieces::Piece;

/// How many classes an object has, and how many passes there may be of it at one time.
#[derive(Clone, Copy)]
pub struct ReassSize {
    pub classes: u32,
    pub passes: u32,
}

/// The piece that the packet `n` is, offered under the number of a pass. No value of it is made.
pub struct Offer {
    pub seat: u64,
    pub n: u64,
    pub piece: Piece,
}

/// What lies in the slot of a class: its offers, in the order in which they were made.
#[derive(Drop)]
pub struct Gathered {
    pub offers: Vec<(u64, Piece)>,
}
