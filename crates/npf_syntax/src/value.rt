// The trees of values.
use crate::boxed::Boxed;
use crate::word::{Address, Number, Str, Var, Word};
use npf_types::{List, Span};

/// An interface: a word or a string, which is a `Name`, or a variable.
#[derive(Debug, Drop)]
pub enum IfaceTree {
    Word { word: Word, span: Span },
    Str { string: Str, span: Span },
    Var { var: Var, span: Span },
}

/// A protocol, or the type or code of an ICMP message: a word, a number of at most 255, or a variable.
#[derive(Debug, Drop)]
pub enum One {
    Word { word: Word, span: Span },
    Number { number: Number, span: Span },
    Var { var: Var, span: Span },
}

/// Protocols in braces, one at least.
#[derive(Debug, Drop)]
pub struct OneList {
    pub ones: List<One>,
    pub span: Span,
}

/// Which of an interface's addresses a function stands for: those of IPv4, those of IPv6, or all.
#[derive(Clone, Copy, Debug, PartialEq, Eq)]
pub enum Function {
    Inet4 { span: Span },
    Inet6 { span: Span },
    IfAddrs { span: Span },
}

/// A value: a number or a range of numbers, first to last; a word; a string; a variable; an address with its prefix
/// length, at most 32 or 128; a table, by a `Name`; or the addresses of an interface.
#[derive(Debug, Drop)]
pub enum Value {
    Number {
        first: Number,
        last: Option<Number>,
        span: Span,
    },
    Word {
        word: Word,
        span: Span,
    },
    Str {
        string: Str,
        span: Span,
    },
    Var {
        var: Var,
        span: Span,
    },
    Address {
        address: Boxed<Address>,
        len: Option<Number>,
        span: Span,
    },
    Table {
        name: Word,
        span: Span,
    },
    Function {
        function: Function,
        iface: Boxed<IfaceTree>,
        span: Span,
    },
}

/// Values in braces; there may be none.
#[derive(Debug, Drop)]
pub struct ValueList {
    pub values: List<Value>,
    pub span: Span,
}

/// One value, or a list of values.
#[derive(Debug, Drop)]
pub enum Values {
    One { value: Value, span: Span },
    List { list: ValueList, span: Span },
}
