// The keys of connections.

/// The five numbers by which a connection is found: protocol, interface and ports, then both addresses.
#[derive(Clone, Copy, Debug, PartialEq, Eq, PartialOrd, Ord, Hash)]
pub struct Key(pub [u64; 5]);

/// Which of a connection's keys: that of the packet that opened it, that of the answers, or that of the port
/// that a translation draws.
#[derive(Clone, Copy, Debug, PartialEq, Eq, PartialOrd, Ord, Hash)]
pub enum Way {
    Forward,
    Backward,
    Port,
}
