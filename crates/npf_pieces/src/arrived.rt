// Pieces as they come, and the sets that they make.

use crate::piece::Piece;

/// A piece that came at this time, in nanoseconds: the run's packet of this place, from 0.
#[derive(Clone, Copy, Debug, PartialEq, Eq)]
pub struct Arrived {
    pub place: usize,
    pub time: u64,
    pub piece: Piece,
}

/// What becomes of a set.
#[derive(Clone, Copy, Debug, PartialEq, Eq)]
pub enum Ending {
    /// It waited too long, or no more comes.
    Unfinished,
    /// Its last piece overlaps the others, or the datagram would be too long.
    Refused,
    /// With its last piece the datagram is whole.
    Complete,
}

/// A set of pieces that came one behind the other: those from the place `first` up to `behind`, which isn't one of them.
#[derive(Clone, Copy, Debug, PartialEq, Eq)]
pub struct SetAt {
    pub first: usize,
    pub behind: usize,
    pub ending: Ending,
}
