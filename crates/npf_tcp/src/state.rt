// The state of a TCP connection, as npf keeps it.

/// The phase of a connection, as a filter between the two hosts sees it. After the states of RFC 9293 section 3.3.2.
/// "Forward" is the side that sent the connection's first segment.
#[derive(Clone, Copy, Debug, PartialEq, Eq, PartialOrd, Ord, Hash)]
pub enum TcpPhase {
    /// Reset: nothing follows but another reset.
    Closed,
    /// The forward side sent SYN.
    SynSent,
    /// Both sides sent SYN, and neither acknowledged the other's.
    SimsynSent,
    /// A SYN was answered by SYN and ACK.
    SynReceived,
    /// Data flows both ways.
    Established,
    /// The forward side sent FIN.
    FinSent,
    /// The backward side sent FIN.
    FinReceived,
    /// The forward side acknowledged the backward side's FIN.
    CloseWait,
    /// The backward side acknowledged the forward side's FIN.
    FinWait,
    /// Both sides sent FIN, and neither acknowledged the other's.
    Closing,
    /// Both sides sent FIN, and one of them is acknowledged.
    LastAck,
    /// Both sides' FINs are acknowledged.
    TimeWait,
}

/// How much is known of a side of a connection.
#[derive(Clone, Copy, Debug, PartialEq, Eq, PartialOrd, Ord, Hash)]
pub enum Known {
    /// Nothing: it sent no segment, and none was acknowledged to it.
    Nothing,
    /// The other side acknowledged something to it.
    Expected,
    /// It sent a segment.
    Seen,
}

/// A side of a connection. Sequence numbers go round at 2^32.
#[derive(Clone, Copy, Debug, PartialEq, Eq, PartialOrd, Ord, Hash)]
pub struct TcpSide {
    pub known: Known,
    /// The sequence number after the last that it sent.
    pub end: u32,
    /// The sequence number up to which it may send, by the other side's acknowledgments and windows.
    pub maxend: u32,
    /// The greatest window that it offered, in bytes and scaled.
    pub maxwin: u32,
    /// The shift of its windows (RFC 7323 section 2), if it asked for one; above 14 it counts as 14.
    pub scale: Option<u8>,
}

/// The state of a connection: its phase and its two sides.
#[derive(Clone, Copy, Debug, PartialEq, Eq, PartialOrd, Ord, Hash)]
pub struct TcpState {
    pub phase: TcpPhase,
    /// The side that sent the first segment.
    pub forward: TcpSide,
    pub backward: TcpSide,
    /// Whether it takes a reset only at the end of what its sender sent, or one byte before it: `state.tcp.strict_order_rst`
    /// of NetBSD's npf-params(7). No segment changes it.
    pub strict: bool,
}
