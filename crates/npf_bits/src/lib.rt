// Sets of small numbers as slices of words: number n is in a set where bit n % 64 of word n / 64 is set. A set of the numbers below a count
// has `word_count` words, and sets that are compared or combined have equally many.
//
// The contract: each function says by `has` (specs/Bits) which numbers a set has, so that no caller looks at a word.
#![tactic(auto)]

mod combine;
mod compare;
mod make;

pub use combine::{difference_with, intersect_with};
pub use compare::{first, is_within, meets};
pub use make::{fill, insert, word_count};
