// The version of IP (RFC 791 section 3.1, RFC 8200 section 3).
ghost use Rattle.std.specs.Prelude.{◌≡◌, ◌≤◌, ◌<◌, ◌/◌, length, slice_index};
ghost use Rattle.npf_packet.specs.Version.{version_number, version_of_packet};

use crate::decoded::Decoded;
use npf_types::limits::MAX_PACKET_BYTES;

/// The versions of IP.
#[derive(Clone, Copy)]
pub(crate) enum Version {
    V4,
    V6,
}

/// The version of a packet with no link header, which its own first byte tells.
pub(crate) fn version_of_packet(bytes: &[u8]) -> Result<Version, Decoded>
    requires { length bytes.now ≤ MAX_PACKET_BYTES }
    ensures { result ≡ version_of_packet bytes.now }
{
    if bytes.is_empty() {
        return Err(Decoded::cut(0));
    }
    match version_at(bytes, 0) {
        4 => Ok(Version::V4),
        6 => Ok(Version::V6),
        _ => Err(Decoded::bad(0)),
    }
}

/// The number in the upper half of the IP header's first byte.
pub(crate) fn version_at(bytes: &[u8], ip_at: usize) -> u8
    requires { ip_at < length bytes.now }
    ensures { result ≡ version_number bytes.now ip_at }
{
    bytes[ip_at] >> 4
}
