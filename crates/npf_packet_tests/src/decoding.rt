// Decodings as text.
ghost use Rattle.std.specs.Prelude.{◌≤◌, length};

use anyhow::Result;
use npf_packet::{Decoded, decode, fragment, ip_extent};
use npf_types::limits::MAX_PACKET_BYTES;
use npf_types::{Addr, Facts, Link};
use std::alloc::{AllocError, Global};
use std::net::{IpAddr, Ipv4Addr, Ipv6Addr};

pub fn decoding_text(alloc: Global, link: Link, packet: &[u8]) -> Result<String>
    requires { length packet.now ≤ MAX_PACKET_BYTES }
{
    match decode(link, packet) {
        Decoded::Ip(facts) => Ok(facts_text(alloc, &facts)?),
        other => Ok(format!(in alloc; "{other:?}")?),
    }
}

/// Both ends, the protocol, the places of the IP header, of what it carries and of the packet's end, and what IP carries.
fn facts_text(alloc: Global, facts: &Facts) -> Result<String, AllocError> {
    let Facts {
        src,
        dst,
        proto,
        ip_at,
        l4_at,
        end,
        l4,
    } = *facts;
    let (src, dst) = (ip(src), ip(dst));
    format!(in alloc; "{src} > {dst} proto {proto} at {ip_at} {l4_at} {end} {l4:?}")
}

fn ip(addr: Addr) -> IpAddr {
    match addr {
        Addr::V4(bits) => IpAddr::V4(Ipv4Addr::from_bits(bits)),
        Addr::V6(bits) => IpAddr::V6(Ipv6Addr::from_bits(bits)),
    }
}

/// The places of the IP packet's first byte and of its end.
pub fn extent_text(alloc: Global, link: Link, packet: &[u8]) -> Result<String>
    requires { length packet.now ≤ MAX_PACKET_BYTES }
{
    let extent = ip_extent(link, packet);
    Ok(format!(in alloc; "{} {}", extent.at, extent.end)?)
}

/// Where the fragment is, if the record is one.
pub fn fragment_text(alloc: Global, link: Link, packet: &[u8]) -> Result<String>
    requires { length packet.now ≤ MAX_PACKET_BYTES }
{
    Ok(format!(in alloc; "{:?}", fragment(link, packet))?)
}
