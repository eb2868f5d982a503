// Texts and numbers, written behind what a buffer has.
//
// Numbers are decimal, without a sign or a leading zero, by `itoa`. Whoever writes lines for people writes them by these calls.
//
// The contract: with Ok the buffer has what it had and then the text or the number, and nothing else. With want of memory a part of
// it may stand there.
#![tactic(auto)]

mod write;

pub use write::{write_bytes, write_counted, write_number, write_text};
