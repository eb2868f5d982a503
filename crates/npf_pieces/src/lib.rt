// Fragments of IP packets (RFC 791 sections 2.3 and 3.2, RFC 8200 section 4.5): which packets are pieces of a datagram and of
// which, the sets that the pieces of one datagram make as they come, and the datagrams of whole sets.
//
// The contract: `piece_of` answers exactly what `SeenAs` says of a packet: it is no fragment, or it is one of no datagram, or it
// is this piece; a law says that for each packet there is one answer. `sets_of` tells exactly the sets of `sets_from`, which
// are parts of the list that it is given: a piece that shares a byte with its set, or passes its last one, refuses it; a set is
// complete once every byte is there; and it is left unfinished where a piece comes 30 seconds after its first. `Datagrams` lays
// out the datagram of a whole set, as a set is that ends complete: the header of the piece that begins it, changed where the
// length, the fragment field and IPv4's sum tell a fragment, and all data at their places; and puts each in place of the packet
// that made its set whole. `sets_of` takes memory for the units of 8 bytes of one datagram and for its answer, `Datagrams` for
// what it lays out; `piece_of` takes none.
#![tactic(auto)]

mod arrived;
mod datagram;
mod datagram_at;
mod datagrams;
mod header;
mod ipv4;
mod ipv6;
mod laws;
mod measure;
mod overlap;
mod piece;
mod sets;

pub use arrived::{Arrived, Ending, SetAt};
pub use datagrams::{DatagramBytes, Datagrams};
pub use laws::{complete_set_is_whole, one_seeing};
pub use piece::{FragKey, Piece, Seen, piece_of};
pub use sets::{SetFinder, sets_of};
