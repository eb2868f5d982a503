use anyhow::{Context, Result, anyhow};
use std::alloc::Global;

/// A row: its first line, which is what is asked and, behind a blank, a text in which `\n`, `\t`, `\r`, `\\`, `\xff` and `\x80` are those
/// bytes; or what is asked, `:` and the row's name. The lines under it that begin with `|` are lines of its text as they stand, and
/// `repeat N LINE` is a line N times, with its number, from 1, for `%`. Empty lines, and those that begin with `#`, are none.
#[derive(Drop)]
pub struct Row {
    pub line: String,
    pub text: Vec<u8>,
}

impl Row {
    fn new(alloc: Global, line: String) -> Result<Row> {
        let mut text = Vec::new(alloc);
        push_written(&mut text, parts(line.as_str()).1)?;
        Ok(Row { line, text })
    }

    /// What is asked.
    pub fn asked(&self) -> &str {
        parts(self.line.as_str()).0
    }

    /// The text of the first line as it is written.
    pub fn written(&self) -> &str {
        parts(self.line.as_str()).1
    }

    fn push_line(&mut self, line: &str) -> Result<()> {
        self.text.extend_from_slice(line.as_bytes())?;
        self.text.push(b'\n')?;
        Ok(())
    }

    fn push_lines(&mut self, alloc: Global, count: u32, line: &str) -> Result<()> {
        let (front, back) = line.split_once('%').context("no % in the line")?;
        for number in 1..=count {
            let numbered = format!(in alloc; "{front}{number}{back}")?;
            self.push_line(numbered.as_str())?;
        }
        Ok(())
    }
}

/// Reads the next line of the input: a row, more of the last one, or neither.
pub fn read_line(alloc: Global, rows: &mut Vec<Row>, line: String) -> Result<()> {
    if line.is_empty() || line.starts_with('#') {
        return Ok(());
    }
    if let Some(text) = line.strip_prefix('|') {
        let row = rows.last_mut().context("no row")?;
        return row.push_line(text.strip_prefix(' ').unwrap_or(text));
    }
    if let Some(repeated) = line.strip_prefix("repeat ") {
        let row = rows.last_mut().context("no row")?;
        let (count, text) = repeated.split_once(' ').context("no line to repeat")?;
        return row.push_lines(alloc, count.parse()?, text);
    }
    rows.push(Row::new(alloc, line)?)?;
    Ok(())
}

// What is asked, and the text behind it, which a row with a name doesn't have.
fn parts(line: &str) -> (&str, &str) {
    let (asked, text) = line.split_once(' ').unwrap_or((line, ""));
    match asked.strip_suffix(':') {
        Some(asked) => (asked, ""),
        None => (asked, text),
    }
}

// A piece behind a backslash begins with the escape; where it is empty the backslash is doubled, and the next piece stands as it is.
fn push_written(text: &mut Vec<u8>, written: &str) -> Result<()> {
    let mut plain = true;
    for piece in written.split('\\') {
        let bytes = piece.as_bytes();
        if plain {
            text.extend_from_slice(bytes)?;
            plain = false;
        } else if bytes.is_empty() {
            text.push(b'\\')?;
            plain = true;
        } else {
            push_escaped(text, bytes)?;
        }
    }
    Ok(())
}

fn push_escaped(text: &mut Vec<u8>, escaped: &[u8]) -> Result<()> {
    let (byte, others) = match escaped {
        [b'n', others @ ..] => (b'\n', others),
        [b't', others @ ..] => (b'\t', others),
        [b'r', others @ ..] => (b'\r', others),
        [b'x', b'f', b'f', others @ ..] => (0xff, others),
        [b'x', b'8', b'0', others @ ..] => (0x80, others),
        _ => return Err(anyhow!("no such escape")),
    };
    text.push(byte)?;
    text.extend_from_slice(others)?;
    Ok(())
}
