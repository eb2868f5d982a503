// The tokens of npf.conf(5), each with its place in the text.
//
// A text is read from its front on. What begins at a place is a blank, a comment, a separator, a string, a variable, a
// sign or a run: a number, an address (RFC 4291 section 2.2 for IPv6) or a word. Runs, comments and signs go on as
// long as they can. A byte that begins nothing, a string without its end and a number past 32 bits are the three
// faults that are met here.
//
// The contract: `lex` answers the tokens exactly where the text spells tokens, and else the first place at which it
// doesn't with the fault that stands there, unless memory runs out.
#![tactic(auto)]

mod byte_class;
mod front;
mod lexer;
mod place;
mod run;
mod sign;
mod token;

pub use lexer::lex;
pub use token::{Sign, Token, TokenKind};
