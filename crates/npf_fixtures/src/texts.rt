// Texts and bytes as rows have them.
use anyhow::{Context, Result, bail};
use std::alloc::Global;
use std::fmt::Write;
use std::str;

/// The words between the spaces, of which `""` is the empty one; none in an empty text.
pub fn words_in(alloc: Global, text: &str) -> Result<Vec<String>> {
    let mut words = Vec::new(alloc);
    for word in text.split_whitespace() {
        let word = if word == "\"\"" { "" } else { word };
        words.push(String::from_str(alloc, word)?)?;
    }
    Ok(words)
}

/// The bytes of a text, in which `\n`, `\t`, `\r` and `\xNN` stand for one byte each.
pub fn unescaped(alloc: Global, text: &str) -> Result<Vec<u8>> {
    let Some((front, behind)) = text.split_once('\\') else {
        return Ok(text.as_bytes().to_vec(alloc)?);
    };
    let mut bytes = front.as_bytes().to_vec(alloc)?;
    for piece in behind.split('\\') {
        let (byte, rest) = split_escape(piece)?;
        bytes.push(byte)?;
        bytes.extend_from_slice(rest.as_bytes())?;
    }
    Ok(bytes)
}

/// The byte that the text behind a `\` begins with, and what stands behind it.
fn split_escape(piece: &str) -> Result<(u8, &str)> {
    let (letter, rest) = piece.split_at_checked(1).context("no escape")?;
    match letter {
        "n" => Ok((b'\n', rest)),
        "t" => Ok((b'\t', rest)),
        "r" => Ok((b'\r', rest)),
        "x" => split_digits(rest),
        _ => bail!("no such escape"),
    }
}

fn split_digits(text: &str) -> Result<(u8, &str)> {
    let (digits, rest) = text.split_at_checked(2).context("no digits")?;
    Ok((u8::from_str_radix(digits, 16)?, rest))
}

/// The bytes of hexadecimal words, up to a `#`.
pub fn hex_bytes(alloc: Global, text: &str) -> Result<Vec<u8>> {
    let words = match text.split_once('#') {
        Some((words, _comment)) => words,
        None => text,
    };
    let mut bytes = Vec::new(alloc);
    for word in words.split_whitespace() {
        bytes.push(u8::from_str_radix(word, 16)?)?;
    }
    Ok(bytes)
}

/// Puts bytes line by line, each behind a mark. Behind one without its line feed stands a `\`.
pub fn put_lines(told: &mut String, mark: &str, bytes: &[u8]) -> Result<()> {
    for line in str::from_utf8(bytes)?.split_inclusive('\n') {
        match line.strip_suffix('\n') {
            Some(line) => write!(told, "{mark}{line}\n")?,
            None => write!(told, "{mark}{line}\\\n")?,
        }
    }
    Ok(())
}

/// Prints what `put_lines` puts.
pub fn print_lines(rt: &(impl Print + AllocGlobal), mark: &str, bytes: &[u8]) -> Result<()> {
    let mut told = String::new(rt.alloc());
    put_lines(&mut told, mark, bytes)?;
    print!(rt; "{told}")?;
    Ok(())
}
