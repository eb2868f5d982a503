// The lines of saved connections, by which a run can go on where another ended: the interfaces of
// the run, and each connection with its keys and its flow. Which lines may stand behind one another
// isn't said here.
//
// `spelling` writes a connection's line and an interface's, and `writing` a whole file. `words`,
// `guess` and `guess_flow` say what a line would have to be, and `line` whether it is that.
//
// The contract: one grammar goes both ways (specs/Spelling). A line is read as a connection exactly
// where it is that connection's line, byte for byte, and as no other; so a capital, a leading zero
// or a second space is refused without a test of its own.
#![tactic(auto)]

mod guess;
mod guess_flow;
mod line;
mod saved;
mod spelling;
mod words;
mod write;

pub use line::{conn_of_line, if_of_line};
pub use saved::Saved;
pub use write::saved_text;
