// Why tokens aren't read.
ghost use Rattle.std.specs.Prelude.{◌≡◌};
ghost use Rattle.npf_parser_values.specs.Answer.{refused_by};
ghost use Rattle.npf_parser_values.specs.Token.{place_of};

use npf_faults::{ConfFault, Fault, Refused};
use npf_lexer::Token;
use npf_types::Span;
use std::alloc::AllocFailed;

/// Tokens stop going on before these, or memory ran out.
#[derive(Clone, Copy)]
pub enum Stop<'a> {
    Before(&'a [Token]),
    NoMemory,
}

impl<'a, T: Drop> From<AllocFailed<T>> for Stop<'a> {
    ghost use Rattle.npf_parser_values.specs.declared.stop.Stop.TheVariants.{NoMemory};

    ghost from_gives = { λ _ stop. stop ≡ NoMemory };

    fn from(_error: AllocFailed<T>) -> Stop<'a> {
        Stop::NoMemory
    }
}

pub(crate) const NOWHERE: Span = Span {
    line: 0,
    col: 0,
    at: 0,
    len: 0,
};

/// Where the first token stands.
fn place_of(tokens: &[Token]) -> Span
    ensures { result ≡ place_of tokens.now }
{
    match tokens.first() {
        Some(token) => token.span,
        None => NOWHERE,
    }
}

/// The fault of a text whose tokens stop there.
pub fn refused_by(stop: Stop) -> Refused
    ensures { result ≡ refused_by stop.entry }
{
    match stop {
        Stop::Before(tokens) => Refused::Fault(ConfFault {
            span: place_of(tokens),
            fault: Fault::Expected,
        }),
        Stop::NoMemory => Refused::NoMemory,
    }
}
