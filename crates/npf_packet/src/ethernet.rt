// Ethernet II (RFC 894); specs/Ethernet.antt has the picture of its header.
ghost use Rattle.std.specs.Prelude.{◌≡◌, ◌≤◌, length};
ghost use Rattle.npf_packet.specs.Ethernet.{version_in_frame, version_told};

use crate::decoded::Decoded;
use crate::version::{Version, version_at};
use npf_fields::get16;
use npf_types::limits::MAX_PACKET_BYTES;

/// The offset of the EtherType, in bytes.
const ETHERTYPE: usize = 12;

/// The header, in bytes.
pub(crate) const HEADER: usize = 14;

/// The EtherTypes of IP.
const IPV4: u16 = 0x0800;

const IPV6: u16 = 0x86dd;

/// The version of IP that a frame has behind its header, where its EtherType tells the same.
pub(crate) fn version_in_frame(frame: &[u8]) -> Result<Version, Decoded>
    requires { length frame.now ≤ MAX_PACKET_BYTES }
    ensures value { result ≡ version_in_frame frame.now }
{
    if frame.len() < HEADER {
        return Err(Decoded::cut(frame.len()));
    }
    match get16(frame, ETHERTYPE) {
        IPV4 => version_told(frame, Version::V4, 4),
        IPV6 => version_told(frame, Version::V6, 6),
        _ => Err(Decoded::Skip),
    }
}

/// The version that the EtherType told, where the IP header has its number.
fn version_told(frame: &[u8], version: Version, number: u8) -> Result<Version, Decoded>
    requires header { 14 ≤ length frame.now }
    requires size { length frame.now ≤ MAX_PACKET_BYTES }
    ensures { result ≡ version_told frame.now version number }
{
    if frame.len() == HEADER {
        return Err(Decoded::cut(HEADER));
    }
    if version_at(frame, HEADER) != number {
        return Err(Decoded::bad(HEADER));
    }
    Ok(version)
}
