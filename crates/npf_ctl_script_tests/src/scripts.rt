// What the text of a script is read to.
use anyhow::{Result, bail};
use npf_ctl_script::{Script, ScriptFault, ScriptLine, read_script};
use npf_fixtures::texts::{print_lines, unescaped};
use npf_types::limits::MAX_TEXT_BYTES;
use npf_types::{Addr, Dir, Name, Prefix};
use std::alloc::{AllocError, Global};
use std::str;

/// Prints what this text is read to.
pub fn print_script(rt: &(impl Print + AllocGlobal), text: &str) -> Result<()> {
    println!(rt)?;
    let shown = shown(rt.alloc(), &unescaped(rt.alloc(), text)?)?;
    print_lines(rt, "  ", shown.as_bytes())
}

/// Prints what a script is read to whose third line is this one, and whose fourth has no form.
pub fn print_line(rt: &(impl Print + AllocGlobal), text: &str) -> Result<()> {
    println!(rt)?;
    let script = format!(in rt.alloc(); "# comment\nphase\n{text}\nfly\n")?;
    let shown = shown(rt.alloc(), &unescaped(rt.alloc(), &script)?)?;
    print_lines(rt, "  ", shown.as_bytes())
}

/// The script of a text.
pub fn script_of(alloc: Global, text: &str) -> Result<Script> {
    let text = unescaped(alloc, text)?;
    if text.len() > MAX_TEXT_BYTES {
        bail!("a long script");
    }
    Ok(read_script(alloc, &text)?)
}

/// Each command, with its line's number in front, or the number of the line that is refused.
fn shown(alloc: Global, text: &[u8]) -> Result<String> {
    if text.len() > MAX_TEXT_BYTES {
        bail!("a long script");
    }
    match read_script(alloc, text) {
        Ok(script) => Ok(commands(alloc, &script)?),
        Err(ScriptFault::BadLine { line }) => Ok(format!(in alloc; "70 at {line}\n")?),
        Err(ScriptFault::NoMemory) => bail!("out of memory"),
    }
}

fn commands(alloc: Global, script: &Script) -> Result<String, AllocError> {
    let mut all = String::new(alloc);
    for (number, line) in script.lines.as_slice() {
        let command = command(alloc, line)?;
        let numbered = format!(in alloc; "{number} {command}\n")?;
        all.push_str(numbered.as_str())?;
    }
    Ok(all)
}

fn command(alloc: Global, line: &ScriptLine) -> Result<String, AllocError> {
    match line {
        ScriptLine::Capture { name, dir, file } => {
            let dir = match dir {
                Dir::In => "in",
                Dir::Out => "out",
            };
            format!(in alloc;
                "capture {} {dir} {:?}",
                word(name),
                string(file.as_slice())
            )
        }
        ScriptLine::Phase => String::from_str(alloc, "phase"),
        ScriptLine::Packets(None) => String::from_str(alloc, "packets, all"),
        ScriptLine::Packets(Some(count)) => format!(in alloc; "packets, {count}"),
        ScriptLine::Reload { file } => format!(in alloc; "reload {:?}", string(file.as_slice())),
        ScriptLine::RuleAdd { name, text } => {
            format!(in alloc; "add to {} {:?}", word(name), string(text.as_slice()))
        }
        ScriptLine::RuleRem { name, id } => format!(in alloc; "take {id} of {}", word(name)),
        ScriptLine::RuleFlush { name } => format!(in alloc; "take all of {}", word(name)),
        ScriptLine::TableAdd { name, prefix } => {
            let prefix = spelled(alloc, prefix)?;
            format!(in alloc; "add to {} {prefix}", word(name))
        }
        ScriptLine::TableRem { name, prefix } => {
            let prefix = spelled(alloc, prefix)?;
            format!(in alloc; "take of {} {prefix}", word(name))
        }
        ScriptLine::Expire(time) => format!(in alloc; "expire {time}"),
    }
}

fn spelled(alloc: Global, prefix: &Prefix) -> Result<String, AllocError> {
    match prefix.addr {
        Addr::V4(bits) => format!(in alloc; "v4 {bits}/{}", prefix.len),
        Addr::V6(bits) => format!(in alloc; "v6 {bits}/{}", prefix.len),
    }
}

fn word(name: &Name) -> &str {
    string(name.as_bytes())
}

fn string(bytes: &[u8]) -> &str {
    match str::from_utf8(bytes) {
        Ok(text) => text,
        Err(_) => "not UTF-8",
    }
}
