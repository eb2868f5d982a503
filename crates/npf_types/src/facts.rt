// What is known of a packet.
use crate::address::Addr;

/// A TCP segment (RFC 9293 section 3.1): its flags, sequence and acknowledgment numbers and window as they stand
/// in the header, the number of payload bytes, and the shift of a window scale option (RFC 7323 section 2), at most 14.
#[derive(Clone, Copy, Debug, PartialEq, Eq, PartialOrd, Ord, Hash)]
pub struct Segment {
    pub flags: u8,
    pub seq: u32,
    pub ack: u32,
    pub win: u16,
    pub len: u32,
    pub scale: Option<u8>,
}

/// What a packet carries above IP. `mss_at` is the place of a maximum segment size option's number, counted from the
/// record's first byte, and `echo` the identifier of an echo message.
#[derive(Clone, Copy, Debug, PartialEq, Eq, PartialOrd, Ord, Hash)]
pub enum L4 {
    Tcp {
        sport: u16,
        dport: u16,
        seg: Segment,
        mss_at: Option<u32>,
    },
    Udp {
        sport: u16,
        dport: u16,
    },
    Icmp {
        kind: u8,
        code: u8,
        echo: Option<u16>,
    },
    Icmp6 {
        kind: u8,
        code: u8,
        echo: Option<u16>,
    },
    Other,
}

/// What a packet's bytes say: both addresses, the protocol, and the places, counted from the record's first byte,
/// of the IP header (`ip_at`), of what it carries (`l4_at`) and of the packet's end (`end`).
#[derive(Clone, Copy, Debug, PartialEq, Eq, PartialOrd, Ord, Hash)]
pub struct Facts {
    pub src: Addr,
    pub dst: Addr,
    pub proto: u8,
    pub ip_at: u32,
    pub l4_at: u32,
    pub end: u32,
    pub l4: L4,
}
