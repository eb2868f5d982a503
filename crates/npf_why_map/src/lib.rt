// Why a map can't be: which condition of fault 47 holds of the map that is written at a place.
//
// `reason` has a reason for each condition of npf_check's definition (`is_bad_map`, and a side that is a table), in its order; `side` finds
// whether a side is a table, by the definitions before its map; `place` finds the map.
//
// The contract: the reason that is told is the first whose condition holds (specs/Reason); none is told exactly where npf_check has no fault
// of the map, so that a condition of npf_check without a reason fails the proof; and each fault 47 of a text has a reason (`laws`).
#![tactic(auto)]

pub mod laws;
mod place;
mod reason;
mod side;

pub use place::reason_at;
pub use reason::{MapReason, map_reason};
