// The line of a text at a place, and a caret below the place.
ghost use Rattle.std.specs.Prelude.{◌≡◌, ◌++◌, OnOk, drop, replicate};
ghost use Rattle.npf_ctl_why.specs.Excerpt.{caret_text, excerpt_text, line_at, shown_line_text, shown_byte, shown_text};

use npf_text::write_text;
use npf_types::{NoMemory, Span};
use npf_why::line_len;

/// Appends two lines: that of the text, and one with a caret below the first byte of the place.
pub(crate) fn write_excerpt(into: &mut Vec<u8>, text: &[u8], span: Span) -> Result<(), NoMemory>
    ensures { OnOk result (into.new.items ≡ into.old.items ++ excerpt_text text.now span) }
{
    write_line(into, line_at(text, span))?;
    write_caret(into, span.col)
}

fn write_line(into: &mut Vec<u8>, line: &[u8]) -> Result<(), NoMemory>
    ensures { OnOk result (into.new.items ≡ into.old.items ++ shown_line_text line.now) }
{
    write_text(into, "  ")?;
    write_shown(into, line)?;
    write_text(into, "\n")
}

fn write_caret(into: &mut Vec<u8>, col: u32) -> Result<(), NoMemory>
    ensures { OnOk result (into.new.items ≡ into.old.items ++ caret_text col) }
{
    write_text(into, "  ")?;
    write_blanks(into, col.saturating_sub(1))?;
    write_text(into, "^\n")
}

fn write_blanks(into: &mut Vec<u8>, count: u32) -> Result<(), NoMemory>
    ensures { OnOk result (into.new.items ≡ into.old.items ++ replicate count 32) }
{
    for column in 0..count {
        into.push(b' ')?;
    }
    Ok(())
}

/// Appends bytes of a text as a terminal shows them: a tab as a space, and what isn't printed as a question mark.
pub(crate) fn write_shown(into: &mut Vec<u8>, bytes: &[u8]) -> Result<(), NoMemory>
    ensures { OnOk result (into.new.items ≡ into.old.items ++ shown_text bytes.now) }
{
    for byte in bytes {
        into.push(shown_byte(*byte))?;
    }
    Ok(())
}

fn shown_byte(byte: u8) -> u8
    ensures { result ≡ shown_byte byte }
{
    if byte == b'\t' {
        b' '
    } else if byte < 32 || byte > 126 {
        b'?'
    } else {
        byte
    }
}

/// The line in which a place is.
fn line_at(text: &[u8], span: Span) -> &[u8]
    ensures { result.now ≡ line_at text.now span }
{
    let start = (span.at as usize + 1).saturating_sub(span.col as usize);
    let rest = from(text, start);
    rest.split_at(line_len(rest)).0
}

/// The bytes from a place on.
pub(crate) fn from(text: &[u8], start: usize) -> &[u8]
    ensures { result.now ≡ drop start text.now }
{
    if start <= text.len() {
        text.split_at(start).1
    } else {
        &[]
    }
}
