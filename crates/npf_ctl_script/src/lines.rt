// The text of a script, line by line.
ghost use Rattle.std.specs.Prelude.{◌≤◌, IfErr, IfOk, length};
ghost use Rattle.npf_ctl_script.specs.Lines.{AnswersLine, IsScript, RefusesScript};

use crate::arguments::read_arguments;
use crate::command::command_of;
use crate::script::{Script, ScriptFault, ScriptLine};
use crate::section::Section;
use crate::words::{is_skipped, split_word};
use npf_types::limits::MAX_TEXT_BYTES;
use npf_types::{List, NoMemory};
use std::alloc::Global;

/// Reads the text of a script, of at most `MAX_TEXT_BYTES` bytes. Refused for its first line, counted from 1, that is no command or
/// stands where its command may not, or for want of memory.
pub fn read_script(alloc: Global, text: &[u8]) -> Result<Script, ScriptFault>
    requires { length text.now ≤ MAX_TEXT_BYTES }
    ensures ok { IfOk result (λ script. IsScript text.now script.lines) }
    ensures err { IfErr result (RefusesScript text.now) }
{
    let mut lines = Vec::new(alloc);
    let mut section = Section::Captures;
    let mut number = 0u32;
    for line in text.split(|byte| *byte == b'\n') {
        number += 1;
        if is_skipped(line) {
            continue;
        }
        let Some(said) = read_line(alloc, section, line)? else {
            return Err(ScriptFault::BadLine { line: number });
        };
        section = section.after(&said);
        lines.push((number, said))?;
    }
    Ok(Script {
        lines: List::of_vec(lines),
    })
}

/// The command that the line is, None where it is none or may not come next.
fn read_line(alloc: Global, section: Section, line: &[u8]) -> Result<Option<ScriptLine>, NoMemory>
    ensures { IfOk result (AnswersLine section line.now) }
{
    let (word, behind) = split_word(line);
    let Some(command) = command_of(word) else {
        return Ok(None);
    };
    if !section.takes(command) {
        return Ok(None);
    }
    read_arguments(alloc, command, behind)
}
