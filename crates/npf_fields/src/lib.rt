// Numbers in a packet's headers, which stand there with the highest byte first (network byte order, RFC 791
// appendix B), and the step that keeps an Internet checksum right when one of its words changes.
//
// The step is equation 3 of RFC 1624: HC' = ~(~HC + ~m + m'), in one's complement of 16 bits. Unlike the older
// equation 2 it never turns a sum of 0xFFFF into 0 wrongly by a change of another word.
//
// The contract: a `get` gives the number that the field's bytes make; a `put` makes the field's bytes that number
// and leaves every other byte; an adjusted sum verifies with the new word exactly where the old sum verified with
// the old word. Where a field lies is the caller's to know: it must lie in the bytes.
#![tactic(auto)]

mod checksum;
mod field;

pub use checksum::sum_adjust;
pub use field::{get16, get32, get128, put16, put32, put128};
