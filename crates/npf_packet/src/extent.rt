// Where a record has its IP packet, by the version and the length in its IP header alone.
ghost use Rattle.std.specs.Prelude.{◌≡◌, ◌+◌, ◌≤◌, length};
ghost use Rattle.npf_types.specs.declared.facts.Facts.{Facts};
ghost use Rattle.npf_packet.specs.declared.decoded.Decoded.TheVariants.{Ip};
ghost use Rattle.npf_packet.specs.Decoder.{Decodes};
ghost use Rattle.npf_packet.specs.Extent.{IsIpExtent, told_end};

use crate::decoder::packet_at;
use crate::version::version_at;
use crate::{ipv4, ipv6};
use npf_types::Link;
use npf_types::limits::MAX_PACKET_BYTES;

/// The header's first bytes, up to where both versions have their length.
const LENGTHS: usize = 6;

/// The places of a record's bytes from the IP header's first, `at`, up to the IP packet's end, which isn't its own.
#[derive(Clone, Copy, Debug, PartialEq, Eq)]
pub struct IpExtent {
    pub at: u32,
    pub end: u32,
}

/// Where the record has its IP packet, if it is one of IP. Of another record the answer says only that it ends within it.
pub fn ip_extent(link: Link, bytes: &[u8]) -> IpExtent
    requires { length bytes.now ≤ MAX_PACKET_BYTES }
    ensures packet { (facts : Facts) → Decodes link bytes.now (Ip facts) → IsIpExtent facts result }
    ensures end { result.end ≤ length bytes.now }
{
    let size = bytes.len();
    let at = packet_at(link);
    let end = if size < at + LENGTHS {
        size
    } else {
        size.min(told_end(bytes, at))
    };
    IpExtent {
        at: at as u32,
        end: end as u32,
    }
}

/// Where the packet ends by the header that begins at `at`.
fn told_end(bytes: &[u8], at: usize) -> usize
    requires header { at + 6 ≤ length bytes.now }
    requires size { length bytes.now ≤ MAX_PACKET_BYTES }
    ensures { result ≡ told_end bytes.now at }
{
    match version_at(bytes, at) {
        4 => at + ipv4::total_len(bytes, at),
        _ => at + ipv6::HEADER + ipv6::payload_len(bytes, at),
    }
}
