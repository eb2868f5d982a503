// The trees of maps.
use crate::value::Value;
use crate::word::Word;
use npf_types::Span;

/// How a map translates: by ports that are drawn, or by a fixed rule; with the algorithm that is named, if one is. `no_ports` is where
/// `no-ports` stands, which isn't built.
#[derive(Debug, Drop)]
pub enum MapKind {
    Dynamic {
        algo: Option<Word>,
        no_ports: Option<Span>,
        span: Span,
    },
    Static {
        algo: Option<Word>,
        no_ports: Option<Span>,
        span: Span,
    },
}

/// Which way a map translates: outward, inward, or both.
#[derive(Clone, Copy, Debug, PartialEq, Eq)]
pub enum ArrowTree {
    Right { span: Span },
    Left { span: Span },
    Both { span: Span },
}

/// One side of a map: an address, and a port if it is said. A written value is an address, a table, a variable or a function; a
/// written port is a number up to 65535, a range of such, a word or a variable.
#[derive(Debug, Drop)]
pub struct SideTree {
    pub value: Value,
    pub port: Option<Value>,
    pub span: Span,
}
