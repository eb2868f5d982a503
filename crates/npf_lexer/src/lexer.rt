// A text's tokens, one after the other.
//
// A text is one of two things, its tokens or its first fault, said by one relation with a law that it is one alone: so each half of
// 'exactly where' is one clause. A fault's span is the first byte of what is bad, a string's its quote; a number too large has all of it.
ghost use Rattle.std.specs.Prelude.{◌≡◌, ◌≤◌, Ok, Err, IfOk, IfErr, length};
ghost use Rattle.npf_types.specs.Reading.{IsOnly};
ghost use Rattle.npf_lexer.specs.Lexer.{IsLexed, IfFault, end_token};

use crate::front::{Front, front_at};
use crate::place::TextPlace;
use crate::token::{Token, TokenKind};
use npf_faults::Refused;
use npf_types::limits::MAX_TEXT_BYTES;
use std::alloc::Global;

/// The tokens of a text of npf.conf(5), the last of them `End`; or the first fault of the text: a byte or run that is no
/// token (10), a string without its end (11), a number past 4,294,967,295 (12). The text has at most `MAX_TEXT_BYTES` bytes.
pub fn lex(alloc: Global, text: &[u8]) -> Result<Vec<Token>, Refused>
    requires { length text.now ≤ MAX_TEXT_BYTES }
    ensures tokens { IfOk result (λ tokens. IsOnly IsLexed text.now (Ok tokens.items)) }
    ensures fault { IfErr result (IfFault (λ fault. IsOnly IsLexed text.now (Err fault))) }
{
    let mut tokens = Vec::new(alloc);
    let mut place = TextPlace::start();
    let mut rest = text;
    'tokens: loop {
        match front_at(alloc, place, rest)? {
            Front::End => {
                tokens.push(end_token(place))?;
                return Ok(tokens);
            }
            Front::Skipped(len, next) => {
                place = next;
                rest = rest.split_at(len).1;
            }
            Front::Found(token, len, next) => {
                tokens.push(token)?;
                place = next;
                rest = rest.split_at(len).1;
            }
            Front::Faulty(fault) => return Err(Refused::Fault(fault)),
        }
    }
}

fn end_token(place: TextPlace) -> Token
    ensures { result ≡ end_token place }
{
    Token {
        kind: TokenKind::End,
        span: place.span(0),
    }
}
