// What a translation writes.
use crate::address::Addr;

/// One end of a translated packet: its address, and its port or echo identifier where that changes too.
#[derive(Clone, Copy, Debug, PartialEq, Eq, PartialOrd, Ord, Hash)]
pub struct End {
    pub addr: Addr,
    pub port: Option<u16>,
}

/// What a translation writes. A neutral change (RFC 6296) keeps the sum of the addresses, so no checksum changes.
#[derive(Clone, Copy, Debug, PartialEq, Eq, PartialOrd, Ord, Hash)]
pub struct Change {
    pub src: Option<End>,
    pub dst: Option<End>,
    pub neutral: bool,
}
