// The machine of connections: what a table of connections may be asked, where each act is allowed, what it is answered, and
// which state it leaves. A table that many threads use is right where its calls make one legal history of this machine.
//
// A connection is claimed in a slot, takes its keys, and is started with a flow; from then on each of its packets is a step of
// the flow's law. It is killed where it was given up before its start or where it is due, gives back its keys, and is freed; a
// slot's next connection has another incarnation. The states of connections are those of the stateful rules of npf.conf(5); stating
// an object by the histories of its calls is Herlihy and Wing, "Linearizability", TOPLAS 12(3), 1990.
//
// The contract: the definitions stand in specs/, for any law and any number of slots, and `laws` has what holds of every legal
// history: replay, key, identity and stale look-up law, and those that tables and their users need. `play` is the machine on a
// plain value, and `replay` gives the legal history of a list of acts or the first act that isn't allowed.
#![tactic(auto)]

mod act;
mod conn_id;
mod entry;
mod found;
mod held;
mod hold;
mod kept;
mod law;
pub mod laws;
mod plain_machine;
mod plays;
mod replays;
mod reply;
mod slot;
mod stage;
mod stepped;

pub use act::{Act, Why};
pub use conn_id::ConnId;
pub use entry::Entry;
pub use found::Found;
pub use held::Held;
pub use hold::Holding;
pub use kept::Kept;
pub use law::Law;
pub use plain_machine::PlainMachine;
pub use plays::play;
pub use replays::{Asked, ReplayFault, replay};
pub use reply::Reply;
pub use slot::Slot;
pub use stage::Stage;
pub use stepped::Stepped;
