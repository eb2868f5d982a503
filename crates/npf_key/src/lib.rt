// The keys by which a packet's connection is found: its protocol, interface, addresses and ports as five numbers of 64 bits.
//
// The words are those of the stateful rules of npf.conf(5): a connection has the key of the packet that opened it, the
// key of the answers to that packet, and, where a translation draws a port, the key of that port. Ports are those of
// RFC 9293 and RFC 768; an echo (RFC 792, RFC 4443 section 4) has its identifier in their place. The layout of the
// numbers is this project's own.
//
// The contract: `key_of` and `port_key` are sums of their parts, each at a power of two of its own, and the backward key of
// `keys_of` is the key of the translated packet with source and destination changed about, for packets of IPv4 and IPv6. A key of
// what isn't a packet of its own, as what an ICMP error quotes, is made by `key_between`; a packet's ports, and
// what a change names in it, are said here for the crates above.
#![tactic(auto)]

mod key;
pub mod laws;
mod port;
mod translated;
mod word;

pub use key::{key_between, key_of, keys_of, port_key};
pub use port::{destination_port, source_port};
pub use translated::{fitting, named_port, shares_family};
