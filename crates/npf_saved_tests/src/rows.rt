// Which row a line has.
use crate::setting::Setting;
use crate::texts::{HEAD, file_text};
use anyhow::{Result, bail};
use npf_saved::{conn_of_line, if_of_line, saved_text};
use npf_saved_file::read_saved;
use npf_types::limits::MAX_SAVED_BYTES;
use std::alloc::Global;

/// Prints the row of a line, if it has one, and its answer.
pub fn answer_line(
    rt: &(impl Print + AllocGlobal),
    setting: &mut Setting,
    line: &str,
) -> Result<()> {
    if line.is_empty() || line.starts_with('#') {
        return Ok(());
    }
    let alloc = rt.alloc();
    let (word, text) = line.split_once(' ').unwrap_or((line, ""));
    match word {
        "case" => println!(rt; "{line}")?,
        "name" => setting.name_line(alloc, text)?,
        "run" => setting.begin_run(alloc, text)?,
        "line" => println!(rt; "{line} -> {}", told_line(alloc, text)?)?,
        "file" => println!(rt; "{line} -> {}", told_file(alloc, setting, text)?)?,
        "open" => println!(rt; "{line} -> {}", told_open(alloc, setting, text)?)?,
        "bytes" => println!(rt; "{line} -> {}", told_text(alloc, setting, text.as_bytes())?)?,
        _ => bail!("no such row"),
    }
    Ok(())
}

/// What a line is, and whether it is written again as it is read.
fn told_line(alloc: Global, line: &str) -> Result<String> {
    if let Some(saved) = conn_of_line(alloc, line.as_bytes())? {
        return told_again(
            alloc,
            "connection",
            line,
            &saved_text(alloc, &[], &[saved])?,
        );
    }
    if let Some(name) = if_of_line(alloc, line.as_bytes())? {
        return told_again(alloc, "interface", line, &saved_text(alloc, &[name], &[])?);
    }
    Ok(String::from_str(alloc, "none")?)
}

fn told_again(alloc: Global, kind: &str, line: &str, text: &[u8]) -> Result<String> {
    let wanted = format!(in alloc; "{HEAD}\n{line}\n")?;
    if text == wanted.as_bytes() {
        return Ok(format!(in alloc; "{kind}, written again")?);
    }
    Ok(format!(in alloc; "{kind}, written otherwise")?)
}

fn told_file(alloc: Global, setting: &Setting, parts: &str) -> Result<String> {
    let text = file_text(alloc, setting, parts)?;
    told_text(alloc, setting, text.as_bytes())
}

/// What is told of a file whose last line no line feed ends.
fn told_open(alloc: Global, setting: &Setting, parts: &str) -> Result<String> {
    let text = file_text(alloc, setting, parts)?;
    let bytes = text.as_bytes();
    told_text(alloc, setting, &bytes[..bytes.len().saturating_sub(1)])
}

/// How many connections a text has, and whether it is written again as it is read; or why it is refused.
fn told_text(alloc: Global, setting: &Setting, text: &[u8]) -> Result<String> {
    if text.len() > MAX_SAVED_BYTES {
        bail!("a long text");
    }
    match read_saved(alloc, text, &setting.names, setting.slots) {
        Err(fault) => Ok(format!(in alloc; "{fault:?}")?),
        Ok(conns) => {
            let again = saved_text(alloc, &setting.names, &conns)?;
            if again.as_slice() == text {
                return Ok(format!(in alloc; "{} connections, written again", conns.len())?);
            }
            Ok(format!(in alloc; "written otherwise")?)
        }
    }
}
