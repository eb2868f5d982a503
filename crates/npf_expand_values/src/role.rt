// What a value is written for, in a rule or a map.

/// Where a value stands, which says what it may be.
#[derive(Clone, Copy, Debug, PartialEq, Eq)]
pub enum Role {
    AsPort,
    AsAddress,
    AsProtocol,
    AsInterface,
}
