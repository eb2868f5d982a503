// Longest prefix tables: sets of address blocks of both families (RFC 4632 section 3.1, RFC 4291 section 2.3), and
// whether one of them has an address.
//
// Each family has a table of its own, with its addresses standing left in 128 bits. The blocks stand in the order of their first
// addresses, and the shorter before the longer where these are equal; beside each stands the length of the outermost
// block that has its first address. Blocks that overlap are nested, so whatever has an address has the first address
// of the last block at or below it as well: a look-up is a search for that block and one comparison with its outermost
// one. An entry takes 18 bytes in three rows. Of 1,024 blocks and more an index of 256 KiB counts the first addresses
// below each of 65,536 buckets, so that the search is within one bucket. A change moves what stands behind its place, and
// writes the outermost lengths and the counts anew; `of_prefixes` sorts and makes all in one pass.
//
// The contract: contracts see the table as the list of its prefixes, none of which is there twice. `contains` says
// whether some prefix of the list has the address, `insert` and `remove` change the one prefix that they are given.
#![tactic(auto)]

mod aligned;
mod blocks;
mod index;
mod lpm;
mod rows;
mod sort;

pub use lpm::Lpm;
