// What follows the command of a line.
ghost use Rattle.std.specs.Prelude.{IfOk};
ghost use Rattle.npf_ctl_script.specs.declared.command.LineCommand.TheVariants as command;
ghost use Rattle.npf_ctl_script.specs.Arguments.{AnswersArguments};

use crate::change::split_change;
use crate::change_word::Verb;
use crate::command::LineCommand;
use crate::direction::direction_of;
use crate::file_name::file_name_of;
use crate::last::{last_count, last_moment, last_number, last_prefix};
use crate::script::ScriptLine;
use crate::words::{has_no_word, split_word};
use npf_table::trim_start;
use npf_types::{List, Name, NoMemory};
use std::alloc::Global;

/// The line of this command that has these arguments, None where there is none.
pub(crate) fn read_arguments(
    alloc: Global,
    command: LineCommand,
    text: &[u8],
) -> Result<Option<ScriptLine>, NoMemory>
    ensures { IfOk result (AnswersArguments command text.now) }
{
    match command {
        LineCommand::Capture => read_capture(alloc, text),
        LineCommand::Phase => Ok(read_phase(text)),
        LineCommand::Packets => Ok(read_packets(text)),
        LineCommand::Reload => read_reload(alloc, text),
        LineCommand::Rule => read_rule(alloc, text),
        LineCommand::Table => Ok(read_table(text)),
        LineCommand::Expire => Ok(read_expire(text)),
    }
}

fn read_capture(alloc: Global, text: &[u8]) -> Result<Option<ScriptLine>, NoMemory>
    ensures { IfOk result (AnswersArguments command.Capture text.now) }
{
    let (interface, behind) = split_word(text);
    let Some(name) = Name::of(interface) else {
        return Ok(None);
    };
    let (direction, behind) = split_word(behind);
    let Some(dir) = direction_of(direction) else {
        return Ok(None);
    };
    let Some(file) = file_name_of(alloc, behind)? else {
        return Ok(None);
    };
    Ok(Some(ScriptLine::Capture { name, dir, file }))
}

fn read_phase(text: &[u8]) -> Option<ScriptLine>
    ensures { AnswersArguments command.Phase text.now result }
{
    if has_no_word(text) {
        return Some(ScriptLine::Phase);
    }
    None
}

fn read_packets(text: &[u8]) -> Option<ScriptLine>
    ensures { AnswersArguments command.Packets text.now result }
{
    let Some(count) = last_count(text) else {
        return None;
    };
    Some(ScriptLine::Packets(count))
}

fn read_reload(alloc: Global, text: &[u8]) -> Result<Option<ScriptLine>, NoMemory>
    ensures { IfOk result (AnswersArguments command.Reload text.now) }
{
    let Some(file) = file_name_of(alloc, text)? else {
        return Ok(None);
    };
    Ok(Some(ScriptLine::Reload { file }))
}

fn read_rule(alloc: Global, text: &[u8]) -> Result<Option<ScriptLine>, NoMemory>
    ensures { IfOk result (AnswersArguments command.Rule text.now) }
{
    let Some(change) = split_change(text) else {
        return Ok(None);
    };
    let name = change.name;
    match change.verb {
        Verb::Add => {
            let rule = trim_start(change.behind).to_vec(alloc)?;
            let text = List::of_vec(rule);
            Ok(Some(ScriptLine::RuleAdd { name, text }))
        }
        Verb::RemId => {
            let Some(id) = last_number(change.behind) else {
                return Ok(None);
            };
            Ok(Some(ScriptLine::RuleRem { name, id }))
        }
        Verb::Flush => {
            if !has_no_word(change.behind) {
                return Ok(None);
            }
            Ok(Some(ScriptLine::RuleFlush { name }))
        }
        Verb::Rem => Ok(None),
    }
}

fn read_table(text: &[u8]) -> Option<ScriptLine>
    ensures { AnswersArguments command.Table text.now result }
{
    let Some(change) = split_change(text) else {
        return None;
    };
    let Some(prefix) = last_prefix(change.behind) else {
        return None;
    };
    let name = change.name;
    match change.verb {
        Verb::Add => Some(ScriptLine::TableAdd { name, prefix }),
        Verb::Rem => Some(ScriptLine::TableRem { name, prefix }),
        Verb::RemId | Verb::Flush => None,
    }
}

fn read_expire(text: &[u8]) -> Option<ScriptLine>
    ensures { AnswersArguments command.Expire text.now result }
{
    let Some(time) = last_moment(text) else {
        return None;
    };
    Some(ScriptLine::Expire(time))
}
