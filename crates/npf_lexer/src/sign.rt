// Signs by their spelling.
ghost use Rattle.std.specs.Prelude.{◌≡◌, find, nat_eq};
ghost use Rattle.npf_lexer.specs.Sign.{sign_text, sign_at};

use crate::token::Sign;

impl Sign {
    /// How the sign is spelled.
    pub fn text(&self) -> &'static str
        ensures { result.now ≡ sign_text self.now }
    {
        match self {
            Sign::Both => "<->",
            Sign::Left => "<-",
            Sign::Right => "->",
            Sign::Less => "<",
            Sign::Greater => ">",
            Sign::Equals => "=",
            Sign::OpenBrace => "{",
            Sign::CloseBrace => "}",
            Sign::OpenParen => "(",
            Sign::CloseParen => ")",
            Sign::Comma => ",",
            Sign::Slash => "/",
            Sign::Dash => "-",
            Sign::Colon => ":",
            Sign::Exclamation => "!",
        }
    }
}

/// The signs, each before those that it begins with.
const LONGEST_FIRST: [Sign; 15] = [
    Sign::Both,
    Sign::Left,
    Sign::Right,
    Sign::Less,
    Sign::Greater,
    Sign::Equals,
    Sign::OpenBrace,
    Sign::CloseBrace,
    Sign::OpenParen,
    Sign::CloseParen,
    Sign::Comma,
    Sign::Slash,
    Sign::Dash,
    Sign::Colon,
    Sign::Exclamation,
];

/// The longest sign that the text begins with.
pub(crate) fn sign_at(text: &[u8]) -> Option<Sign>
    ensures { result ≡ sign_at text.now }
{
    LONGEST_FIRST
        .iter()
        .copied()
        .find(|sign| text.starts_with(sign.text().as_bytes()))
}
