// Slots and nodes taken from the words of the table without locks.
//
// A pass that wants a place loads the word of its pool in which it found one last, then all words from the first on, and claims the lowest
// bit that it finds clear. Where another was faster it begins anew. It gives up only after a sweep: a row of loads, one for each word,
// that found all bits set.
#![tactic(auto)]

mod takes;

pub use takes::take;
