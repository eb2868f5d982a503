// Seats of an object that several threads share: their numbers, what each has seen of one history, and the places that they own.
//
// It is the part of a rule that every such object has, generic in the entries of its history (`seat_of` says whose an entry is) and in what a
// seat knows of the object. Here stand the base's moves on it (a seat is split, gets its number, is joined, reads what it was told, adds an
// entry of its own), how often numbers stand in lists, and sums over seats. The functions do nothing: each is a theorem.
#![tactic(auto)]

mod laws;
mod side;

pub use laws::seats_law;
pub use side::SeatSide;
