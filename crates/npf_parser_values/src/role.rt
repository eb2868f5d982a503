// What a value is read for.

/// Where a value stands, which says what it may be.
#[derive(Clone, Copy, Debug, PartialEq, Eq)]
pub enum ValueRole {
    /// In the definition of a variable.
    Any,
    Address,
    Port,
}
