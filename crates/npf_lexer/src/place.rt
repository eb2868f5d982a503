// Places in a text.
ghost use Rattle.std.specs.Prelude.{◌≡◌, ◌+◌, ◌≤◌};
ghost use Rattle.npf_lexer.specs.Place.{text_start, along, over_line, span_of};

use npf_types::Span;
use npf_types::limits::MAX_TEXT_BYTES;

/// Where a byte of the text stands: its line and column from 1, and how many bytes are before it.
#[derive(Clone, Copy, Debug, PartialEq, Eq)]
pub(crate) struct TextPlace {
    pub(crate) line: u32,
    pub(crate) col: u32,
    pub(crate) at: u32,
}

impl TextPlace {
    pub(crate) fn start() -> TextPlace
        ensures { result ≡ text_start }
    {
        TextPlace {
            line: 1,
            col: 1,
            at: 0,
        }
    }

    /// The place `len` bytes further in the same line.
    pub(crate) fn along(self, len: usize) -> TextPlace
        requires bytes { len ≤ MAX_TEXT_BYTES }
        requires col { self.col ≤ MAX_TEXT_BYTES + 1 }
        requires at { self.at ≤ MAX_TEXT_BYTES }
        ensures { result ≡ along len self }
    {
        TextPlace {
            line: self.line,
            col: self.col + len as u32,
            at: self.at + len as u32,
        }
    }

    /// The beginning of the next line, which is `len` bytes further.
    pub(crate) fn over_line(self, len: usize) -> TextPlace
        requires bytes { len ≤ MAX_TEXT_BYTES }
        requires line { self.line ≤ MAX_TEXT_BYTES + 1 }
        requires at { self.at ≤ MAX_TEXT_BYTES }
        ensures { result ≡ over_line len self }
    {
        TextPlace {
            line: self.line + 1,
            col: 1,
            at: self.at + len as u32,
        }
    }

    pub(crate) fn span(self, len: usize) -> Span
        requires { len ≤ MAX_TEXT_BYTES }
        ensures { result ≡ span_of len self }
    {
        Span {
            line: self.line,
            col: self.col,
            at: self.at,
            len: len as u32,
        }
    }
}
