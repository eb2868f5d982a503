// Fragments that several threads gather at one time, by classes, so that all pieces of one datagram come to one list.
//
// A class has a word and a slot. A pass takes the class's turn by a compare-exchange of the word, adds its piece to the slot, and
// frees the word by a store, at which the offer stands in the history: the test-and-set lock of Herlihy and Shavit, "The Art of
// Multiprocessor Programming", chapter 7, once for each class. So passes wait for one another only within a class, for the time
// of one push. Words and slots are those of atomic_table; who a pass is and what it has seen is npf_seats' part of the rule.
//
// The contract: a pass shows one history of offers, which begins with what it had seen, ends with its own offer, and has its own
// offers once each, in their order; after want of memory there is none. A pass that owns all places has its own offers and those
// of the passes that were joined into it, and no others; `close` gives for each class the offers of that class, each once, by
// rising number.
#![tactic(auto)]

mod class;
mod moves;
mod offer;
mod reass;
mod rule;
mod turn;
mod view;

pub use class::class_of;
pub use offer::{Gathered, Offer, ReassSize};
pub use reass::{Reass, ReassPass};
pub use rule::GatheringRule;
pub use view::ReassView;
