// Places in a text.

/// A place in a text: line and column count from 1, `at` and `len` are in bytes. A tab is one column.
#[derive(Clone, Copy, Debug, PartialEq, Eq, PartialOrd, Ord, Hash)]
pub struct Span {
    pub line: u32,
    pub col: u32,
    pub at: u32,
    pub len: u32,
}
