// What a person is told of a fault of a configuration, beside its line: what could stand at its place, which known names are near an
// unknown one, and a sentence.
//
// What can stand where the grammar halts is asked of the proved parser: `candidate` has the words and signs of the grammar and an example
// of everything else, and `stand` puts one after the other behind the tokens before the place, and parses. `distance` and `near` compare
// names by the edit distance of Levenshtein (1966). `stretch` finds the statement, item or call that holds a place, and `remains` what is
// left of a text without it.
//
// The contract: with each candidate that is told the tokens before it begin a text of the grammar, were every value to fit; at each other
// one the grammar halts, or before it; and no word of the grammar is lacking among the candidates (`laws`). The names that are told are
// those of least distance. What is left of a text has its bytes at their places, but spaces for those of what was taken out.
#![tactic(auto)]

mod candidate;
mod distance;
mod halt;
mod known;
pub mod laws;
mod name_table;
mod nearest;
mod remains;
mod sentence;
mod stand;
mod stretch;
mod tokens;

pub use candidate::Candidate;
pub use halt::{greatest, is_told, sentence_at};
pub use known::{GivenNames, given_names, interfaces, settings};
pub use name_table::looked_up;
pub use nearest::{MAX_NEAR_BYTES, near};
pub use remains::{Remains, line_len, without};
pub use sentence::Sentence;
pub use stand::could_stand;
pub use tokens::{tokens_at, tokens_before};
