// The numbers that a publisher gives.

/// The numbers that a publisher publishes: from `first` to `last`, both included.
#[derive(Clone, Copy, Debug, PartialEq, Eq)]
pub struct NumberRange {
    pub first: u64,
    pub last: u64,
}
