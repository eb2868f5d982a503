// The packets of a run: each with its time, its link and interface, and its bytes where a keeper has them, which it alone may
// change. Whoever cuts a keeper's bytes into packets, a capture's or a datagram's, stands beside the others: all hand in the same.
//
// The contract: a packet is what contracts see of it, the list of its bytes among the rest (specs/Bytes says how they are lent).
// Nothing here takes memory.
#![tactic(auto)]

mod packet;
mod phase;

pub use packet::{FragWhy, Packet, PacketBytes};
pub use phase::{Command, Phase, Spread};
