// A table of connections without locks, for many threads at a time.
//
// A look-up enters a stay, walks the trie of keys, and leaves: it waits for nobody. A connection is begun in a slot of its own, holds its keys
// by leaves of the trie, and lives under its slot's turn. The words are those of npf_cells; here its steps, put together by npf_epoch,
// npf_pool, npf_trie and npf_turn, become the calls of a table.
//
// A connection that ends gives its keys up, whose leaves are unlinked, and is let go with the epoch as it is then. Two epochs later nobody
// speaks of it any more, and a collection frees its slot, and gets back the nodes that were emptied.
//
// The contract: `Conns` meets `Connections<L>` for every law `L` whose flows may go to another thread. Its own `enter`, `look` and `leave` say
// the same as those, take no handle to wait by, and a look loads at most 95 places of the trie and five words of keys.
#![tactic(auto)]

mod begin;
mod collect;
mod conns;
mod copy;
mod endings;
mod expire;
mod vacancy;

pub use conns::{ConnPass, Conns};
pub use npf_paths::{Fnv, KeyHash};
