// Words, numbers and addresses as they are written.
use npf_types::{Addr, Span, Text};

/// A quoted string, without its quotes.
#[derive(Debug, Drop)]
pub struct Str {
    pub text: Text,
    pub span: Span,
}

/// A word: a letter first, then letters, digits, `_`, `.` and `-`.
#[derive(Debug, Drop)]
pub struct Word {
    pub text: Text,
    pub span: Span,
}

/// A variable, by its name without the `$`.
#[derive(Debug, Drop)]
pub struct Var {
    pub name: Text,
    pub span: Span,
}

/// A decimal number.
#[derive(Clone, Copy, Debug, PartialEq, Eq)]
pub struct Number {
    pub value: u32,
    pub span: Span,
}

/// An IPv4 or IPv6 address.
#[derive(Clone, Copy, Debug, PartialEq, Eq)]
pub struct Address {
    pub addr: Addr,
    pub span: Span,
}
