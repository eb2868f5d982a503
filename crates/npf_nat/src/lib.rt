// What a map of network address translation changes in a packet (npf.conf(5), "Map"; RFC 3022), and
// in the answers to it.
//
// A map's left side is the inside: what goes out gets its source from the right side, what comes in
// its destination from the left. A dynamic map gives one address, and outward a port or an echo's
// identifier that is drawn; `netmap` gives a block for a block; `npt66` does so in a way that keeps
// checksums (RFC 6296).
//
// The contract: `plan`, `drawn` and `npt66` equal the definitions of specs/, which say by cases of
// the direction and the kind of map what is written. `plan` is None exactly where the packet's
// protocol, direction or ends aren't the map's; interface and filter are for the caller to test.
// `laws` has what follows: static maps there and back, and the answers.
#![tactic(auto)]

mod answer;
mod first_port;
pub mod laws;
mod map_plan;
mod netmap;
mod npt;
mod segment;

pub use first_port::drawn;
pub use map_plan::{MapPlan, plan};
pub use npt::npt66;
