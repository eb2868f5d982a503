// The lines of a file of expectations.
ghost use Rattle.std.specs.Prelude.{◌≡◌, ◌≤◌, IfErr, IfOk, length};
ghost use Rattle.npf_table.specs.TableFile.{lines};
ghost use Rattle.npf_ctl_check.specs.Reading.{AreExpected, IsExpected, RefusesLine, RefusesAnyLine, told_at};

use crate::expectation::Expectation;
use crate::line::said_by;
use crate::words::is_skipped;
use npf_ctl_class::class_of;
use npf_ctl_input::text_of;
use npf_ctl_messages::{CommandFault, LineFault};
use npf_model::{Ifaces, Model};
use npf_types::NoMemory;
use npf_types::limits::MAX_TEXT_BYTES;
use std::alloc::Global;

/// A file of expectations, by its name and with its text.
#[derive(Clone, Copy)]
pub(crate) struct ExpectationFile<'a> {
    pub name: &'a str,
    pub text: &'a [u8],
}

/// What the lines of a text of at most `MAX_TEXT_BYTES` bytes expect of classes beside this model and these interfaces. Refused for its first line,
/// counted from 1, that expects nothing or whose class has a fault, or for want of memory.
pub(crate) fn read_lines(
    alloc: Global,
    file: ExpectationFile<'_>,
    model: &Model,
    ifaces: &Ifaces,
) -> Result<Vec<Expectation>, CommandFault>
    requires { length file.text.now ≤ MAX_TEXT_BYTES }
    ensures ok { IfOk result (λ read. AreExpected ifaces.now.list model.now (lines file.entry.text.now) read.items) }
    ensures err { IfErr result (RefusesAnyLine file.entry.name.now ifaces.now.list model.now file.entry.text.now) }
{
    let mut read = Vec::new(alloc);
    let mut number = 0u32;
    for line in file.text.split(|byte| *byte == b'\n') {
        number += 1;
        if is_skipped(line) {
            continue;
        }
        let expectation = read_line(alloc, file.name, number, line, model, ifaces)?;
        read.push(expectation)?;
    }
    Ok(read)
}

/// What the line of this number expects, which isn't skipped.
fn read_line(
    alloc: Global,
    file: &str,
    number: u32,
    line: &[u8],
    model: &Model,
    ifaces: &Ifaces,
) -> Result<Expectation, CommandFault>
    ensures ok { IfOk result (IsExpected ifaces.now.list model.now number line.now) }
    ensures err { IfErr result (RefusesLine file.now ifaces.now.list model.now number line.now) }
{
    let Some(said) = said_by(line) else {
        return Err(CommandFault::Line {
            script: text_of(alloc, file)?,
            line: number,
            fault: LineFault::BadLine,
        });
    };
    match class_of(alloc, said.class, model, ifaces) {
        Ok(class) => Ok(Expectation {
            line: number,
            amount: said.amount,
            wanted: said.wanted,
            class,
        }),
        Err(fault) => Err(told_at(alloc, file, number, fault)?),
    }
}

/// The fault of a class, told at the line that the class stands in.
fn told_at(
    alloc: Global,
    file: &str,
    number: u32,
    fault: CommandFault,
) -> Result<CommandFault, NoMemory>
    ensures { IfOk result (λ told. told ≡ told_at file.now number fault) }
{
    match fault {
        CommandFault::Configuration { fault, .. } => Ok(CommandFault::Line {
            script: text_of(alloc, file)?,
            line: number,
            fault: LineFault::Conf(fault),
        }),
        fault => Ok(fault),
    }
}
