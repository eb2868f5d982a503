// Fragments of IP packets (RFC 791 section 3.1, RFC 8200 section 4.5), which aren't looked into.
//
// It stands on the reading of the headers by which `decode` goes, too: what IPv4's header says is read before it is asked whether it is of
// a fragment (`whole_v4`), and each header of IPv6's chain keeps the place of the byte that names it.
ghost use Rattle.std.specs.Prelude.{◌≤◌, length, IfSome};
ghost use Rattle.npf_packet.specs.declared.version.Version.TheVariants.{V4, V6};
ghost use Rattle.npf_packet.specs.Decoder.{packet_at};
ghost use Rattle.npf_packet.specs.FragmentAt.{FindsFragment, FindsIn, IsPlacedFragment};

use crate::decoder::{packet_at, version_behind};
use crate::ipv4::{self, whole_v4};
use crate::ipv6::{self, end_v6, last_header};
use crate::version::Version;
use npf_types::Link;
use npf_types::limits::MAX_PACKET_BYTES;

/// Where a record has the parts of a fragment, in bytes from the record's first: its IP header at `ip_at` and the packet's
/// end. In IPv6 `at` is where the fragment header begins and `named_at` the byte that names it; in IPv4 `at` is where what is
/// carried begins, and `named_at` is 0.
#[derive(Clone, Copy, Debug, PartialEq, Eq)]
pub struct FragmentAt {
    pub v6: bool,
    pub ip_at: u32,
    pub named_at: u32,
    pub at: u32,
    pub end: u32,
}

/// Where the record has a fragment, if it is one: an IPv4 packet behind which more follow or whose offset isn't 0, or an IPv6
/// packet whose headers end in a fragment header. A record that `decode` finds malformed is none.
pub fn fragment(link: Link, bytes: &[u8]) -> Option<FragmentAt>
    requires { length bytes.now ≤ MAX_PACKET_BYTES }
    ensures finds { FindsFragment link bytes.now result }
    ensures placed { IfSome result (IsPlacedFragment (packet_at link) (length bytes.now)) }
{
    match version_behind(link, bytes) {
        Ok(Version::V4) => fragment_v4(bytes, packet_at(link)),
        Ok(Version::V6) => fragment_v6(bytes, packet_at(link)),
        Err(_) => None,
    }
}

/// The same of the IPv4 packet whose header begins at `ip_at`.
fn fragment_v4(bytes: &[u8], ip_at: usize) -> Option<FragmentAt>
    requires size { length bytes.now ≤ MAX_PACKET_BYTES }
    requires place { ip_at ≤ 14 }
    ensures finds { FindsIn V4 bytes.now ip_at result }
    ensures placed { IfSome result (IsPlacedFragment ip_at (length bytes.now)) }
{
    let packet = match whole_v4(bytes, ip_at) {
        Ok(packet) => packet,
        Err(_) => return None,
    };
    if !ipv4::is_fragment(bytes, ip_at) {
        return None;
    }
    Some(FragmentAt {
        v6: false,
        ip_at: ip_at as u32,
        named_at: 0,
        at: packet.l4_at as u32,
        end: packet.end as u32,
    })
}

/// The same of the IPv6 packet whose header begins at `ip_at`.
fn fragment_v6(bytes: &[u8], ip_at: usize) -> Option<FragmentAt>
    requires size { length bytes.now ≤ MAX_PACKET_BYTES }
    requires place { ip_at ≤ 14 }
    ensures finds { FindsIn V6 bytes.now ip_at result }
    ensures placed { IfSome result (IsPlacedFragment ip_at (length bytes.now)) }
{
    let end = match end_v6(bytes, ip_at) {
        Ok(end) => end,
        Err(_) => return None,
    };
    let last = last_header(bytes, ip_at, end);
    if !ipv6::is_fragment(last, end) {
        return None;
    }
    Some(FragmentAt {
        v6: true,
        ip_at: ip_at as u32,
        named_at: last.named_at as u32,
        at: last.at as u32,
        end: end as u32,
    })
}
