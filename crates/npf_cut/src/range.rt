// Sets of numbers by ranges.

/// Numbers of a set: those from the low one to the high one, both among them, and none where the low one is higher.
#[derive(Clone, Copy, PartialEq, Eq, PartialOrd, Ord)]
pub struct Range {
    /// The number of the set.
    pub set: usize,
    pub low: u128,
    pub high: u128,
}
