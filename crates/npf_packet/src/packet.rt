// What the headers of IP say.
ghost use Rattle.std.specs.Prelude.{◌≡◌, ◌≤◌, length};

use npf_types::limits::MAX_PACKET_BYTES;
use npf_types::{Addr, Facts, L4};

/// What the headers of IP say: the addresses, the protocol of what is carried, and where the IP header, what is
/// carried and the packet's end are, in bytes from the record's first.
#[derive(Clone, Copy)]
pub(crate) struct IpPacket {
    pub(crate) src: Addr,
    pub(crate) dst: Addr,
    pub(crate) proto: u8,
    pub(crate) ip_at: usize,
    pub(crate) l4_at: usize,
    pub(crate) end: usize,
}

impl IpPacket {
    ghost use Rattle.npf_packet.specs.Packet.{facts_of};

    /// The facts of a packet that carries this.
    pub(crate) fn facts(self, l4: L4) -> Facts
        requires ip { self.ip_at ≤ self.l4_at }
        requires upper { self.l4_at ≤ self.end }
        requires end { self.end ≤ MAX_PACKET_BYTES }
        ensures { result ≡ facts_of self l4 }
    {
        Facts {
            src: self.src,
            dst: self.dst,
            proto: self.proto,
            ip_at: self.ip_at as u32,
            l4_at: self.l4_at as u32,
            end: self.end as u32,
            l4,
        }
    }
}
