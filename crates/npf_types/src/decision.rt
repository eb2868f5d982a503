// What the rules say of a packet.

/// What a `block` rule answers to the sender: nothing, a TCP reset, an ICMP message, or whichever of the two fits
/// (`return`, `return-rst` and `return-icmp` of npf.conf(5)).
#[derive(Clone, Copy, Debug, PartialEq, Eq, PartialOrd, Ord, Hash)]
pub enum Return {
    Nothing,
    Any,
    Rst,
    Icmp,
}

/// What a rule decides.
#[derive(Clone, Copy, Debug, PartialEq, Eq, PartialOrd, Ord, Hash)]
pub enum Decision {
    Pass,
    Block(Return),
}
