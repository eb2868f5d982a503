// What a packet's bytes say: one record of a capture is decoded into its facts, or is skipped, or
// is malformed at a place.
//
// A file here and in specs/ for each protocol, with its header's offsets: Ethernet II (RFC 894),
// IPv4 (RFC 791), IPv6 with its extension headers (RFC 8200, RFC 4302), TCP with its options (RFC
// 9293, RFC 7323), UDP (RFC 768), ICMP (RFC 792) and ICMPv6 (RFC 4443). Which tests are made, in
// which order and with which answer, is docs/FORMATS.md, "Packets".
//
// The contract: `decode` answers exactly what `Decodes` says of the link and the bytes, and for
// each link and bytes there is one such answer. Each field is the number at a stated offset;
// extension headers and options are lists in which each follows from the one before. `decode` takes
// no memory and always returns. `ip_extent` tells where a record has its IP packet, by the IP header
// alone, as `decode` would. `fragment` tells where a record that `decode` skips as a fragment has what makes it one.
#![tactic(auto)]

mod decoded;
mod decoder;
mod ethernet;
mod extent;
mod fragment_at;
mod icmp;
mod icmpv6;
mod ipv4;
mod ipv6;
mod laws;
mod packet;
mod tcp;
mod tcp_option;
mod udp;
mod upper;
mod version;

pub use decoded::{BadPacket, Decoded};
pub use decoder::decode;
pub use extent::{IpExtent, ip_extent};
pub use fragment_at::{FragmentAt, fragment};
pub use laws::{
    decoded_has_fields, decoded_has_places, decoded_is_packet, fragment_is_skipped, one_decoding,
    one_fragment,
};
