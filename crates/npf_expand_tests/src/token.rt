use crate::fault::Place;
use npf_lexer::{Token, TokenKind};
use npf_types::Addr;
use std::fmt;

/// A token: its place, and what it is.
#[derive(Clone, Copy)]
pub struct Placed<'a>(pub &'a Token);

impl fmt::Display for Placed<'_> {
    fn fmt<W: fmt::Write>(&self, f: &mut fmt::Formatter<W>) -> fmt::Result {
        write!(f, "{} ", Place(self.0.span))?;
        match &self.0.kind {
            TokenKind::LineFeed => write!(f, "line feed"),
            TokenKind::Semicolon => write!(f, "semicolon"),
            TokenKind::Str(text) => write!(f, "string \"{}\"", text.as_slice().escape_ascii()),
            TokenKind::Var(text) => write!(f, "variable {}", text.as_slice().escape_ascii()),
            TokenKind::Sign(sign) => write!(f, "sign {}", sign.text()),
            TokenKind::Number(number) => write!(f, "number {number}"),
            TokenKind::Address(address) => write!(f, "address {}", Hexadecimal(*address)),
            TokenKind::Word(text) => write!(f, "word {}", text.as_slice().escape_ascii()),
            TokenKind::End => write!(f, "end"),
        }
    }
}

/// An address as one hexadecimal number, of 8 digits or of 32.
#[derive(Clone, Copy)]
pub struct Hexadecimal(pub Addr);

impl fmt::Display for Hexadecimal {
    fn fmt<W: fmt::Write>(&self, f: &mut fmt::Formatter<W>) -> fmt::Result {
        match self.0 {
            Addr::V4(address) => write!(f, "{address:08x}"),
            Addr::V6(address) => write!(f, "{address:032x}"),
        }
    }
}
