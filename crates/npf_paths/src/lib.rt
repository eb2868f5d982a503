// The trie of a table of connections as data: how a key is hashed, its digits, the places of the trie, what stands in one, and the
// path of a key through it.
//
// The trie is that of Bagwell, "Ideal Hash Trees" (2001), with a root of 64 places and nodes of 16, none compressed. A key is its
// digits, one a level: it goes to the place of its first digit in the root, and as long as a node stands where it has come, on to that
// node's place of its next digit. The first digit is six bits of the key's hash, the next fourteen are four bits of it each, and the
// last eighty are the key's own half-bytes. So the hash decides how long the ways are, and never whether two keys part. It is FNV-1a
// (Fowler, Noll, Vo; draft-eastlake-fnv).
//
// The contract: `Fnv` computes FNV-1a of a key's bytes, `digit` is `digit_of`, `parting_level` is the first level at which two keys'
// digits differ, and keys that differ part at one of the 95 levels, whatever their hashes. A cell's word says that cell. Otherwise the
// crate is laws: a path has at most one place a level and at most one end;
// a filled place leaves all paths alone; where nodes are grown in the place of a leaf, the paths that came there go on within them,
// down to the level at which two keys part, while the others stay; and each place keeps the one level at which paths meet it.
#![tactic(auto)]

mod cell;
mod digits;
mod hash;
pub mod laws;
mod place;

pub use cell::Cell;
pub use digits::{LEVELS, NODE_DIGITS, ROOT_DIGITS, digit, parting_level};
pub use hash::{Fnv, KeyHash};
pub use place::{Lock, Place};
