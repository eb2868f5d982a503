// What `npfctl check` tells of a file of expectations: each of its lines that a configuration doesn't meet, with a packet that is against it, and
// then how many lines there are and how many of them aren't met.
//
// A line is `pass CLASS` or `block CLASS`, which all packets of a class have to meet, or `some pass CLASS` or `some block CLASS`, which one has to
// meet; comments and blank lines are skipped as in a script. `words` parts a line, `line` says what it expects, `lines` reads the file, `asked` puts
// the classes' interfaces behind those of the configuration and numbers all by one list, `first` finds the first decider that treats a packet so,
// `told` says what is told of one expectation, and `check` of all.
//
// The contract: what is read is what each line that isn't skipped expects, with its number from 1, or the text is refused at the first line that
// expects nothing or whose class has a fault (specs/Reading, specs/AskedAbout). What is told is a line for each expectation that isn't met, in their
// order: that of the first decider against it, with a packet of its own, or that there is no packet; and an expectation is met by what the
// configuration means of all packets that there can be (specs/Met, specs/CheckText).
#![tactic(auto)]

mod asked;
mod check;
mod expectation;
mod first;
mod line;
mod lines;
mod told;
mod words;

pub use asked::{AskedExpectations, read_asked_expectations};
pub use check::{CheckAnswer, check_expectations};
pub use expectation::{Amount, Expectation, WantedDecision};
