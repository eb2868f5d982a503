// Names that npf.conf(5) has for numbers: services for ports, protocols, and the types and codes of ICMP and ICMPv6.
//
// Each table is a closed list, whose rows rise by their names and are searched by halves. The contract: a name's number is that
// beside it in the table (specs/Service, Protocol, Icmp), and a text that is no name there has none.
#![tactic(auto)]

mod icmp;
mod named;
mod protocol;
mod service;

pub use icmp::{IcmpNames, IcmpTable};
pub use protocol::{protocol_number, protocol_rows};
pub use service::{service_port, service_rows};
