// What a record's bytes say: the link's header, the headers of IP, and what the packet carries.
ghost use Rattle.std.specs.Prelude.{◌≡◌, ◌≤◌, length};
ghost use Rattle.npf_packet.specs.Decoder.{Decodes, DecodesIp, version_behind, packet_at};

use crate::decoded::Decoded;
use crate::ethernet::{self, version_in_frame};
use crate::ipv4::packet_v4;
use crate::ipv6::packet_v6;
use crate::upper::decode_upper;
use crate::version::{Version, version_of_packet};
use npf_types::Link;
use npf_types::limits::MAX_PACKET_BYTES;

/// What a record's bytes say, of which there are at most `MAX_PACKET_BYTES`. The tests and their
/// order are docs/FORMATS.md, "Packets".
pub fn decode(link: Link, bytes: &[u8]) -> Decoded
    requires { length bytes.now ≤ MAX_PACKET_BYTES }
    ensures { Decodes link bytes.now result }
{
    match version_behind(link, bytes) {
        Ok(version) => decode_ip(version, bytes, packet_at(link)),
        Err(answer) => answer,
    }
}

/// Where the IP header begins.
pub(crate) fn packet_at(link: Link) -> usize
    ensures { result ≡ packet_at link }
{
    match link {
        Link::Raw => 0,
        Link::Ethernet => ethernet::HEADER,
    }
}

/// The version of the IP packet behind the link's header.
pub(crate) fn version_behind(link: Link, bytes: &[u8]) -> Result<Version, Decoded>
    requires { length bytes.now ≤ MAX_PACKET_BYTES }
    ensures { result ≡ version_behind link bytes.now }
{
    match link {
        Link::Raw => version_of_packet(bytes),
        Link::Ethernet => version_in_frame(bytes),
    }
}

/// What the packet says whose IP header begins at `ip_at`.
fn decode_ip(version: Version, bytes: &[u8], ip_at: usize) -> Decoded
    requires size { length bytes.now ≤ MAX_PACKET_BYTES }
    requires place { ip_at ≤ 14 }
    ensures { DecodesIp version bytes.now ip_at result }
{
    let header = match version {
        Version::V4 => packet_v4(bytes, ip_at),
        Version::V6 => packet_v6(bytes, ip_at),
    };
    match header {
        Ok(packet) => decode_upper(bytes, packet),
        Err(answer) => answer,
    }
}
