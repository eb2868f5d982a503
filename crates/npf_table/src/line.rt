// A line of a table file.
ghost use Rattle.std.specs.Prelude.{◌≡◌, ◌↔◌, IsTrue};
ghost use Rattle.std.specs.List.{before_first};
ghost use Rattle.npf_table.specs.Line.{IsLine, IsHost, Takes, entry_text, after_blanks, before_blanks, is_blank, is_hash};

use crate::prefix_text::{first_place, written_prefix};
use npf_model::Kind;
use npf_types::Prefix;

/// What a line is.
#[derive(Clone, Copy)]
pub(crate) enum Line {
    Blank,
    Entry(Prefix),
    Bad,
}

/// What the line is in a file of a table of this kind.
pub(crate) fn read_line(kind: Kind, line: &[u8]) -> Line
    ensures { IsLine kind line.now result }
{
    let text = entry_of(line);
    if text.is_empty() {
        return Line::Blank;
    }
    let Some(prefix) = written_prefix(text) else {
        return Line::Bad;
    };
    if is_taken(kind, &prefix) {
        return Line::Entry(prefix);
    }
    Line::Bad
}

fn is_taken(kind: Kind, prefix: &Prefix) -> bool
    ensures { IsTrue result ↔ Takes kind prefix.now }
{
    match kind {
        Kind::Ipset | Kind::Const => is_host(prefix),
        Kind::Lpm => true,
    }
}

// Whether the prefix is a single address.
pub(crate) fn is_host(prefix: &Prefix) -> bool
    ensures { IsTrue result ↔ IsHost prefix.now }
{
    prefix.len == prefix.addr.width()
}

fn entry_of(line: &[u8]) -> &[u8]
    ensures { result.now ≡ entry_text line.now }
{
    trim_end(trim_start(before_comment(line)))
}

fn before_comment(line: &[u8]) -> &[u8]
    ensures { result.now ≡ before_first is_hash line.now }
{
    match first_place(line, b'#') {
        Some(at) => &line[..at],
        None => line,
    }
}

/// The text without the spaces and tabs at its front.
pub fn trim_start(text: &[u8]) -> &[u8]
    ensures { result.now ≡ after_blanks text.now }
{
    let mut start = 0;
    while start < text.len() && is_space(text[start]) {
        start += 1;
    }
    &text[start..]
}

/// The text without the spaces and tabs at its end.
pub fn trim_end(text: &[u8]) -> &[u8]
    ensures { result.now ≡ before_blanks text.now }
{
    let mut end = text.len();
    while end > 0 && is_space(text[end - 1]) {
        end -= 1;
    }
    &text[..end]
}

fn is_space(byte: u8) -> bool
    ensures { result ≡ is_blank byte }
{
    byte == b' ' || byte == b'\t'
}
