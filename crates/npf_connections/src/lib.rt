// What a table of connections is to those that use it, whatever it is made of: the trait `Connections`.
//
// Many threads use one table, each by a pass of its own. A pass shows a history of the machine of connections (npf_core): its own
// calls, each once and in their order, and those of others as far as it has seen them. The history is legal, and each call
// goes on from what the pass had seen by the entries that the call's contract names; that is the linearizability of Herlihy and
// Wing, "Linearizability", TOPLAS 12(3), 1990, said of each thread's own sight. What a pass was answered in its stay, from
// `enter` to `leave`, isn't freed in it, as in a grace period of read-copy-update (McKenney and Slingwine, 1998).
//
// The contract: the trait, over the records in specs/. `laws` has what holds of these records for every law, and examples that
// they refuse. Everything above a table is proved from the trait alone, so tables can be changed for one another.
#![tactic(auto)]

mod connections;
pub mod laws;

pub use connections::Connections;
