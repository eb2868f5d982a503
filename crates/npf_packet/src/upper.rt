// What an IP packet carries, by its protocol (assigned Internet protocol numbers).
ghost use Rattle.std.specs.Prelude.{◌≡◌, ◌≤◌, length};
ghost use Rattle.npf_packet.specs.Packet.{IsPlaced};
ghost use Rattle.npf_packet.specs.Upper.{Carries, upper_of};

use crate::decoded::Decoded;
use crate::icmp::decode_icmp;
use crate::icmpv6::decode_icmpv6;
use crate::packet::IpPacket;
use crate::tcp::decode_tcp;
use crate::udp::decode_udp;
use npf_types::limits::MAX_PACKET_BYTES;
use npf_types::{Addr, L4};

/// The protocols that are told apart.
#[derive(Clone, Copy)]
enum Upper {
    Tcp,
    Udp,
    Icmp,
    Icmpv6,
    Other,
}

const ICMP: u8 = 1;

const TCP: u8 = 6;

const UDP: u8 = 17;

const ICMPV6: u8 = 58;

/// What a packet says whose IP headers say this.
pub(crate) fn decode_upper(bytes: &[u8], packet: IpPacket) -> Decoded
    requires size { length bytes.now ≤ MAX_PACKET_BYTES }
    requires placed { IsPlaced bytes.now packet }
    ensures { Carries bytes.now packet result }
{
    match upper_of(packet.src, packet.proto) {
        Upper::Tcp => decode_tcp(bytes, packet),
        Upper::Udp => decode_udp(bytes, packet),
        Upper::Icmp => decode_icmp(bytes, packet),
        Upper::Icmpv6 => decode_icmpv6(bytes, packet),
        Upper::Other => Decoded::Ip(packet.facts(L4::Other)),
    }
}

/// The protocol of this number, in a packet from this address. ICMP belongs to IPv4, and ICMPv6 to IPv6.
fn upper_of(src: Addr, proto: u8) -> Upper
    ensures { result ≡ upper_of src proto }
{
    match (proto, src) {
        (TCP, _) => Upper::Tcp,
        (UDP, _) => Upper::Udp,
        (ICMP, Addr::V4(_)) => Upper::Icmp,
        (ICMPV6, Addr::V6(_)) => Upper::Icmpv6,
        _ => Upper::Other,
    }
}
