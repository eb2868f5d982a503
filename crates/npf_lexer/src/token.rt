// What tokens are.
use npf_types::{Addr, Span, Text};

/// A sign of npf.conf(5): `<->`, `<-`, `->`, `<`, `>`, `=`, `{`, `}`, `(`, `)`, `,`, `/`, `-`, `:` and `!`.
#[derive(Clone, Copy, Debug, PartialEq, Eq)]
pub enum Sign {
    Both,
    Left,
    Right,
    Less,
    Greater,
    Equals,
    OpenBrace,
    CloseBrace,
    OpenParen,
    CloseParen,
    Comma,
    Slash,
    Dash,
    Colon,
    Exclamation,
}

/// What a token of npf.conf(5) is. A string is without its quotes, a variable without its `$`. `End` is the text's end.
#[derive(Debug, Drop)]
pub enum TokenKind {
    LineFeed,
    Semicolon,
    Str(Text),
    Var(Text),
    Sign(Sign),
    Number(u32),
    Address(Addr),
    Word(Text),
    End,
}

/// A token and where it stands. Its span covers all its bytes, quotes and `$` too; that of `End` is empty.
#[derive(Debug, Drop)]
pub struct Token {
    pub kind: TokenKind,
    pub span: Span,
}
