// The plain types that every layer speaks: addresses and prefixes, names, lists, the facts of a packet, keys
// of connections, what a rule or a translation says of a packet, and the limits of the program.
//
// A prefix is that of RFC 4632 section 3.1 (IPv4) and RFC 4291 section 2.3 (IPv6); a packet's facts are named
// after the headers of RFC 791, 8200, 9293, 768, 792 and 4443; the words of rules are those of npf.conf(5).
//
// The contract: a `Prefix` has an address exactly where the families agree and the first `len` bits are equal,
// and its host bits are zero; the address of a text is the one that it writes; a `Name` is 1 to 15 bytes that
// npf.conf may use as a name; a `List` is the list of its items. All other types are records that say no more
// than their fields.
//
// Work that is done in stages is a definition alone (specs/Stages): a stage is a relation, `stage (Ok a)` says that it may come to `a`,
// `stage (Err fault)` that it may end with this fault, and two stages, one behind the other, are one. proofs/StageLemmas has what holds
// of all stages.
#![tactic(auto)]

mod action;
mod address;
mod change;
mod decision;
mod direction;
mod facts;
mod interface;
mod key;
pub mod limits;
mod link;
mod list;
mod memory;
mod name;
mod prefix;
mod span;

pub use action::Action;
pub use address::Addr;
pub use change::{Change, End};
pub use decision::{Decision, Return};
pub use direction::Dir;
pub use facts::{Facts, L4, Segment};
pub use interface::IfId;
pub use key::{Key, Way};
pub use link::Link;
pub use list::{List, Text};
pub use memory::NoMemory;
pub use name::Name;
pub use prefix::Prefix;
pub use span::Span;
