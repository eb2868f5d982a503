// The grammar of npf.conf(5): the tree that a configuration's tokens are, or where they are none.
//
// specs/ has the grammar, a definition for each of its lines, as phrases of npf_phrase. Their meaning says which tree
// tokens have, where they stop going on, and how they are read with one token of sight; each function here reads a line.
//
// The contract: `parse` answers a tree that the grammar gives; tokens have one at most, and where they have one it is
// answered, unless memory runs out. Where they have none the fault is 20, exactly where the grammar halts: at the token at
// which they stop going on or at a written value that is unfit for its place. The tokens before that place begin a
// configuration, were every value to fit; and whatever stands behind the next token, or behind an unfit value and the token
// that ends it, none begins so. `parse_rule` does the same for a rule alone.
//
// A function that takes no memory never answers want of it, so that it tells each fault that its line has.
#![tactic(auto)]

mod filter;
mod group;
pub mod laws;
mod map;
mod procedure;
mod rule;
mod stmt;

pub use stmt::{parse, parse_rule};
