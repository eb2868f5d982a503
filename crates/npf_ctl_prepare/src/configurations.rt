// The configurations of a run, one of another.
ghost use Rattle.std.specs.Prelude.{◌≡◌, ◌≢◌, ◌≤◌, ◌+◌, ℕ, true, [], ◌∷◌, All, Ok, IfErr, IfOk, IfSome, OnOk, length, map, option_map, unwrap_or};
ghost use Rattle.std.specs.Option.{is_some};
ghost use Rattle.std.specs.Str.{IsUtf8};
ghost use Rattle.npf_config_changes.specs.Told.{EndsUnlessMemory};
ghost use Rattle.npf_outside.specs.Files.{FilesMoment, SameReadFaults};
ghost use Rattle.npf_ruleset.specs.Configuration.{configuration};
ghost use Rattle.npf_config.specs.Reading.{OnlyReads};
ghost use Rattle.npf_config.specs.Loaded.{HasNextIds, IsLoaded};
ghost use Rattle.npf_ctl_schedule.specs.Schedule.{changes_in, makes_change, unnumbered};
ghost use Rattle.npf_ctl_input.specs.Around.{Around};
ghost use Rattle.npf_ctl_input.specs.Rules.{AddsShortRule};
ghost use Rattle.npf_ctl_input.specs.Unless.{UnlessMemory};
ghost use Rattle.npf_ctl_prepare.specs.Known.{NamesTextFile};
ghost use Rattle.npf_ctl_prepare.specs.Configurations.{AddsRuleAlone, MakesConfigurations, MakesNext, told_at_line};
ghost use Rattle.npf_ctl_prepare.specs.Reloads.{ReloadsFile};
ghost use Rattle.npf_ctl_prepare.specs.Told.{AnswersChange, IsChangeable, TellsChange, made_of, with_next};

use crate::reloads::reload_file;
use npf_config_changes::{ChangeFault, rule_add, rule_flush, rule_rem, table_add, table_rem};
use npf_ctl_messages::{CommandFault, LineFault};
use npf_ctl_script::ScriptLine;
use npf_model::Ifaces;
use npf_outside::Files;
use npf_ruleset::Config;
use npf_types::limits::{MAX_CHANGES, MAX_TEXT_BYTES};
use npf_types::{List, Name, NoMemory};
use std::alloc::Global;
use std::str;

/// The first configuration, and behind it one for each line of this script that makes a change, each made of the one before.
pub(crate) fn make_configurations<F: Files>(
    alloc: Global,
    ifaces: &Ifaces,
    script: &str,
    lines: &[(u32, ScriptLine)],
    first: Config,
    files: &mut F,
) -> Result<Vec<Config>, CommandFault>
    requires first { IsChangeable 1 first }
    requires few { changes_in (unnumbered lines.now) ≤ MAX_CHANGES }
    requires text { All (λ line. NamesTextFile line.1) lines.now }
    requires rules { All (λ line. AddsShortRule line.1) lines.now }
    ensures comes { (before after : FilesMoment) → Around before (F.moment files.old) (F.moment files.new) after
        → UnlessMemory (λ configs. map configuration configs.items) result
        (MakesConfigurations before after ifaces.now.list script.now lines.now (configuration first ∷ []) (configuration first)) }
    ensures count { IfOk result (λ configs. length configs.items ≡ 1 + changes_in (unnumbered lines.now)) }
    ensures reads { OnlyReads (F.moment files.old) (F.moment files.new) }
    ensures faultless { OnOk result (SameReadFaults (F.moment files.old) (F.moment files.new)) }
{
    let mut configs = Vec::new(alloc);
    configs.push(first)?;
    for line in lines {
        let all = configs.as_slice();
        let last = &all[all.len() - 1];
        let next = make_next(alloc, ifaces, script, line, last, files)?;
        configs = with_next(configs, next)?;
    }
    Ok(configs)
}

fn with_next(mut configs: Vec<Config>, next: Option<Config>) -> Result<Vec<Config>, NoMemory>
    ensures { IfOk result (λ more. more.items ≡ with_next configs.items next) }
{
    if let Some(next) = next {
        configs.push(next)?;
    }
    Ok(configs)
}

/// The configuration that the line makes of the last one, if it makes a change.
fn make_next<F: Files>(
    alloc: Global,
    ifaces: &Ifaces,
    script: &str,
    line: &(u32, ScriptLine),
    last: &Config,
    files: &mut F,
) -> Result<Option<Config>, CommandFault>
    requires last { IsChangeable 257 last.now }
    requires text { NamesTextFile line.now.1 }
    requires rules { AddsShortRule line.now.1 }
    ensures answers { (before after : FilesMoment) → Around before (F.moment files.old) (F.moment files.new) after
        → AnswersChange before after ifaces.now.list script.now last.now line.now result }
    ensures reads { OnlyReads (F.moment files.old) (F.moment files.new) }
    ensures faultless { OnOk result (SameReadFaults (F.moment files.old) (F.moment files.new)) }
{
    let number = line.0;
    match &line.1 {
        ScriptLine::Reload { file } => reload(alloc, last, ifaces, file.as_slice(), files),
        ScriptLine::RuleAdd { name, text } => told(
            alloc,
            script,
            number,
            add_rule(alloc, last, *name, text.as_slice(), ifaces),
        ),
        ScriptLine::RuleRem { name, id } => told(
            alloc,
            script,
            number,
            rule_rem(alloc, last, *name, *id),
        ),
        ScriptLine::RuleFlush { name } => told(
            alloc,
            script,
            number,
            rule_flush(alloc, last, *name),
        ),
        ScriptLine::TableAdd { name, prefix } => told(
            alloc,
            script,
            number,
            table_add(alloc, last, *name, *prefix),
        ),
        ScriptLine::TableRem { name, prefix } => told(
            alloc,
            script,
            number,
            table_rem(alloc, last, *name, *prefix),
        ),
        _ => Ok(None),
    }
}

/// The configuration of this file, which takes over the dynamic rules of the last one.
fn reload<F: Files>(
    alloc: Global,
    last: &Config,
    ifaces: &Ifaces,
    file: &[u8],
    files: &mut F,
) -> Result<Option<Config>, CommandFault>
    requires { IsUtf8 file.now }
    ensures comes { (before after : FilesMoment) → Around before (F.moment files.old) (F.moment files.new) after
        → UnlessMemory (made_of (configuration last.now)) result (ReloadsFile before after ifaces.now.list (configuration last.now) file.now) }
    ensures makes { IfOk result (λ next. is_some next ≡ true) }
    ensures changeable { (most : ℕ) → HasNextIds most last.now.model → IfOk result (λ next. IfSome next (IsChangeable (most + 1))) }
    ensures reads { OnlyReads (F.moment files.old) (F.moment files.new) }
    ensures faultless { OnOk result (SameReadFaults (F.moment files.old) (F.moment files.new)) }
{
    let Ok(file) = str::from_utf8(file) else {
        unreachable!()
    };
    let config = reload_file(alloc, last, ifaces, file, files)?;
    Ok(Some(config))
}

/// The configuration with the rule that the text writes.
fn add_rule(
    alloc: Global,
    last: &Config,
    name: Name,
    text: &[u8],
    ifaces: &Ifaces,
) -> Result<Config, ChangeFault>
    requires last { IsChangeable 257 last.now }
    requires text { length text.now ≤ MAX_TEXT_BYTES }
    ensures ok { IfOk result (λ next. AddsRuleAlone (configuration last.now) name ifaces.now.list text.now (Ok (configuration next))) }
    ensures err { IfErr result (EndsUnlessMemory (AddsRuleAlone (configuration last.now) name ifaces.now.list text.now)) }
    ensures loaded { IfOk result IsLoaded }
    ensures ids { (most : ℕ) → HasNextIds most last.now.model → IfOk result (λ next. HasNextIds (most + 1) next.model) }
{
    let (next, _) = rule_add(alloc, last, name, text, ifaces)?;
    Ok(next)
}

/// What the line of this number answers for a change.
fn told(
    alloc: Global,
    script: &str,
    line: u32,
    changed: Result<Config, ChangeFault>,
) -> Result<Option<Config>, CommandFault>
    ensures { TellsChange script.now line changed result }
{
    match changed {
        Ok(next) => Ok(Some(next)),
        Err(fault) => Err(told_fault(alloc, script, line, fault)),
    }
}

fn told_fault(alloc: Global, script: &str, line: u32, fault: ChangeFault) -> CommandFault
    ensures { result ≢ CommandFault.NoMemory → result ≡ told_at_line script.now line fault }
{
    let fault = match fault {
        ChangeFault::Conf(fault) => LineFault::Conf(fault),
        ChangeFault::UnknownTable => LineFault::UnknownTable,
        ChangeFault::Table(fault) => LineFault::Table(fault),
        ChangeFault::UnknownRuleset => LineFault::UnknownRuleset,
        ChangeFault::UnknownRule => LineFault::UnknownRule,
        ChangeFault::NoMemory => return CommandFault::NoMemory,
    };
    match Vec::from_slice(alloc, script.as_bytes()) {
        Ok(script) => CommandFault::Line {
            script: List::of_vec(script),
            line,
            fault,
        },
        Err(_) => CommandFault::NoMemory,
    }
}
