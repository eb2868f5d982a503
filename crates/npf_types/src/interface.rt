// The numbers of interfaces.

/// The number of an interface of a run: 1 to 64 in the order in which the run names them. 0 is no interface of the run.
#[derive(Clone, Copy, Debug, PartialEq, Eq, PartialOrd, Ord, Hash)]
pub struct IfId(pub u16);

impl IfId {
    /// The number of a name that isn't one of the run's interfaces.
    pub const UNKNOWN: IfId = IfId(0);

    /// Every interface, in the key of a connection that isn't bound to the interface of its packets.
    pub const EVERY: IfId = IfId(0);
}
