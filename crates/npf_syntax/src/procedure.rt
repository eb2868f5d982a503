// The trees of procedures.
use crate::word::{Number, Str, Word};
use npf_types::{List, Span};

/// The interface to which packets are logged, a `Name`, as a word or as a string.
#[derive(Debug, Drop)]
pub enum LogName {
    Word { word: Word, span: Span },
    Str { string: Str, span: Span },
}

/// An option of normalisation, by its name as a string: the least time to live, at most 255; the greatest segment size, at
/// most 65535; that packets may be fragmented; or that identifications are drawn, which isn't built.
#[derive(Clone, Copy, Debug, PartialEq, Eq)]
pub enum Opt {
    MinTtl { number: Number, span: Span },
    MaxMss { number: Number, span: Span },
    NoDf { span: Span },
    RandomId { span: Span },
}

/// What a procedure does to a packet: it logs it, or normalises it by one option or more; or it sends it out of an
/// interface, which isn't built.
#[derive(Debug, Drop)]
pub enum Call {
    Log { name: LogName, span: Span },
    Normalize { options: List<Opt>, span: Span },
    Route { span: Span },
}
