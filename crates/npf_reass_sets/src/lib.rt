// The sets that the pieces of a class make, whose keys may be many (RFC 791 section 3.2, RFC 8200 section 4.5).
//
// The pieces of each key are brought side by side by a sort in place, in which those of one key stay
// in the order of their packets, and the sets of one key after another are found in one pass over
// them, with one row of units for all keys: so a class of as many keys as pieces takes no longer than
// one of one, and its pieces take room once.
//
// The contract: `ClassSets::decide` finds the sets of its pieces and no others, and each piece stands in one of them.
#![tactic(auto)]

mod class;
mod key;

pub use class::ClassSets;
