// Follows a TCP connection (RFC 9293) from the segments that a filter between the two hosts sees: its phase, and
// for each side how far it has sent, how far it may send, and the greatest window that it offered.
//
// The idea is Guido van Rooij's ("Real Stateful TCP Packet Filtering in IP Filter", 2001), as in NetBSD's npf(7): a
// segment belongs to a connection only if its class may come in this phase, and its sequence and acknowledgment
// numbers lie within bounds that follow from what both sides have sent. Windows are scaled by RFC 7323 section 2.
// The table of phases and the bounds are this project's own profile.
//
// The contract: `open_tcp` makes the state that a connection's first segment opens, and `step_tcp` says of a later
// segment whether it is accepted and which state follows, by definitions that speak of whole numbers and know no
// machine words. Both answer at every state and segment. A refused segment changes nothing.
#![tactic(auto)]

mod cell;
mod class;
mod extent;
mod flag;
pub mod laws;
mod opening;
mod segment;
mod sequence;
mod state;
mod window;

pub use opening::open_tcp;
pub use segment::step_tcp;
pub use state::{Known, TcpPhase, TcpSide, TcpState};
