// The commands that explain the faults of a configuration: the first, or each that is left when what holds those before is taken out.
ghost use Rattle.std.specs.Prelude.{◌≡◌, ◌≤◌, ◌-◌, ◌++◌, ℕ, List, [], IfOk, IfSome, Ok, Option, Some, length, option_map};
ghost use Rattle.npf_config.specs.Reading.{OnlyReads};
ghost use Rattle.npf_connections.specs.Pass.{Pass};
ghost use Rattle.npf_ctl_input.specs.Around.{Around};
ghost use Rattle.npf_ctl_input.specs.Interfaces.{ReadsInterfaces};
ghost use Rattle.npf_ctl_why.specs.LeftOut.{SaysOfLeft};
ghost use Rattle.npf_ctl_why.specs.Text.{IsExplanation};
ghost use Rattle.npf_ctl_words.specs.CommandLine.{SaysCommand};
ghost use Rattle.npf_engine.specs.Histories.{FlowEntry};
ghost use Rattle.npf_outside.specs.Files.{FilesMoment, SameFiles};
ghost use Rattle.npf_ctl.specs.Ends.{AnswersReason, EndsIn};
ghost use Rattle.npf_ctl.specs.Reasons.{FindsReason, IsLeftBehind, LeavesBehind, LoadsNext, SaysOf, TellsFaults, TellsReason, is_at_end, is_placed, next_place, telling_command};
ghost use Rattle.npf_ctl.specs.Run.{moment};

use crate::flushed::put_flushed;
use npf_ctl_input::{interfaces_of, load_text, read_file};
use npf_ctl_messages::CommandFault;
use npf_ctl_output::put_text;
use npf_ctl_why::{explanation, explanation_of_left};
use npf_ctl_words::Load;
use npf_model::Ifaces;
use npf_outside::{Files, Sink, SinkFault};
use npf_types::limits::MAX_TEXT_BYTES;
use npf_types::{List, NoMemory, Span};
use npf_why::{Remains, without};
use std::alloc::Global;

/// Which faults of a configuration are told.
#[derive(Clone, Copy, Debug, PartialEq, Eq)]
pub(crate) enum WhichFaults {
    /// The first.
    First,
    /// The first, and each that is left when what holds those before is taken out.
    Each,
}

/// How many times a configuration is loaded at most where each of its faults is told.
pub(crate) const MAX_LOADS: u8 = 32;

/// A fault of a text that was read, with what is said of it.
#[derive(Debug, Drop)]
struct Reason {
    fault: CommandFault,
    said: Vec<u8>,
}

/// The file of a configuration, and the interfaces of the run.
#[derive(Clone, Copy, Debug)]
struct ConfigSource<'a> {
    conf: &'a str,
    ifaces: &'a Ifaces,
}

/// Loads a configuration, and puts what is to be said of its faults, the first of which is then answered; or nothing where there is none.
pub(crate) fn explain<F: Files, O: Sink>(
    alloc: Global,
    which: WhichFaults,
    load: Load<'_>,
    files: &mut F,
    out: &mut O,
) -> Result<(), CommandFault>
    ensures ends { (texts : List (List ℕ)) (pass : Pass FlowEntry) → SaysCommand texts (telling_command which load.entry) → EndsIn texts
        (moment (F.moment files.old) (O.moment out.old) pass) (moment (F.moment files.new) (O.moment out.new) pass) result }
    ensures files { SameFiles (F.moment files.old).contents (F.moment files.new).contents }
{
    let found = find_reason(alloc, which, load, files)?;
    match found {
        None => put_text(&[], out),
        Some(reason) => Err(put_reason(reason, out)),
    }
}

/// Puts what is said of a fault in one call, and flushes it. A failing output doesn't change which fault is answered.
fn put_reason<O: Sink>(reason: Reason, out: &mut O) -> CommandFault
    ensures { AnswersReason (O.moment out.old) (O.moment out.new) reason result }
{
    match put_flushed(reason.said.as_slice(), out) {
        Ok(()) => reason.fault,
        Err(SinkFault::Failed) => reason.fault,
        Err(SinkFault::NoMemory) => CommandFault::NoMemory,
    }
}

/// Why a configuration isn't loaded; None where it is. Refused where a file can't be read or is longer than a text may be, or for want of memory.
fn find_reason<F: Files>(
    alloc: Global,
    which: WhichFaults,
    load: Load<'_>,
    files: &mut F,
) -> Result<Option<Reason>, CommandFault>
    ensures found { FindsReason which (F.moment files.old) (F.moment files.new) (option_map (λ name. name.now) load.entry.ifaces) load.entry.conf.now result }
    ensures reads { OnlyReads (F.moment files.old) (F.moment files.new) }
{
    let none = Ifaces {
        list: List::of_vec(Vec::new(alloc)),
    };
    match load.ifaces {
        None => find_in(alloc, which, load.conf, &none, files),
        Some(file) => find_with(alloc, which, load.conf, file, &none, files),
    }
}

/// The same with the interfaces of a file; a fault of that file is told for a run with none.
fn find_with<F: Files>(
    alloc: Global,
    which: WhichFaults,
    conf: &str,
    file: &str,
    none: &Ifaces,
    files: &mut F,
) -> Result<Option<Reason>, CommandFault>
    requires { none.now.list ≡ [] }
    ensures found { FindsReason which (F.moment files.old) (F.moment files.new) (Some file.now) conf.now result }
    ensures reads { OnlyReads (F.moment files.old) (F.moment files.new) }
{
    let bytes = read_file(alloc, file, MAX_TEXT_BYTES as u64, files)?;
    let text = bytes.as_slice();
    match interfaces_of(alloc, file, text) {
        Ok(ifaces) => find_in(alloc, which, conf, &ifaces, files),
        Err(fault) => reason_of(alloc, fault, text, none),
    }
}

/// The same with interfaces that were read.
fn find_in<F: Files>(
    alloc: Global,
    which: WhichFaults,
    conf: &str,
    ifaces: &Ifaces,
    files: &mut F,
) -> Result<Option<Reason>, CommandFault>
    ensures found { (before after : FilesMoment) (given : Option (List ℕ)) → Around before (F.moment files.old) (F.moment files.new) after
        → ReadsInterfaces before after given (Ok ifaces.now.list) → FindsReason which before after given conf.now result }
    ensures reads { OnlyReads (F.moment files.old) (F.moment files.new) }
{
    let bytes = read_file(alloc, conf, MAX_TEXT_BYTES as u64, files)?;
    let text = bytes.as_slice();
    match load_text(alloc, ifaces, conf, text, files) {
        Ok(_) => Ok(None),
        Err(fault) => reason_in(
            alloc,
            which,
            fault,
            text,
            ConfigSource { conf, ifaces },
            files,
        ),
    }
}

/// What is said of a fault of a configuration's text.
fn reason_in<F: Files>(
    alloc: Global,
    which: WhichFaults,
    fault: CommandFault,
    text: &[u8],
    source: ConfigSource<'_>,
    files: &mut F,
) -> Result<Option<Reason>, CommandFault>
    requires { length text.now ≤ MAX_TEXT_BYTES }
    ensures tells { (before after : FilesMoment) → Around before (F.moment files.old) (F.moment files.new) after
        → TellsReason (SaysOf before after source.entry.ifaces.now.list source.entry.conf.now which text.now fault) fault result }
    ensures reads { OnlyReads (F.moment files.old) (F.moment files.new) }
{
    match which {
        WhichFaults::First => reason_of(alloc, fault, text, source.ifaces),
        WhichFaults::Each => reasons_of(alloc, fault, text, source, files),
    }
}

/// What is said of a fault that a text has; one of another file is refused.
fn reason_of(
    alloc: Global,
    fault: CommandFault,
    text: &[u8],
    ifaces: &Ifaces,
) -> Result<Option<Reason>, CommandFault>
    requires { length text.now ≤ MAX_TEXT_BYTES }
    ensures { TellsReason (IsExplanation ifaces.now.list fault (Some text.now)) fault result }
{
    if !is_placed(&fault) {
        return Err(fault);
    }
    let said = explanation(alloc, &fault, Some(text), ifaces)?;
    Ok(Some(Reason { fault, said }))
}

/// What is said of a fault that a text has, and of those that are left; one of another file is refused.
fn reasons_of<F: Files>(
    alloc: Global,
    fault: CommandFault,
    text: &[u8],
    source: ConfigSource<'_>,
    files: &mut F,
) -> Result<Option<Reason>, CommandFault>
    requires { length text.now ≤ MAX_TEXT_BYTES }
    ensures tells { (before after : FilesMoment) → Around before (F.moment files.old) (F.moment files.new) after
        → TellsReason (TellsFaults before after source.entry.ifaces.now.list source.entry.conf.now (MAX_LOADS - 1) text.now [] fault) fault result }
    ensures reads { OnlyReads (F.moment files.old) (F.moment files.new) }
{
    if !is_placed(&fault) {
        return Err(fault);
    }
    let left = text.to_vec(alloc)?;
    let gone = Vec::new(alloc);
    let said = tell_faults(
        alloc,
        MAX_LOADS - 1,
        &fault,
        Remains { left, gone },
        source,
        files,
    )?;
    Ok(Some(Reason { fault, said }))
}

/// What is said of a fault of what remains of a text, and of so many more that are left behind it.
fn tell_faults<F: Files>(
    alloc: Global,
    more: u8,
    fault: &CommandFault,
    remains: Remains,
    source: ConfigSource<'_>,
    files: &mut F,
) -> Result<Vec<u8>, NoMemory>
    requires { length remains.left.items ≤ MAX_TEXT_BYTES }
    ensures tells { (before after : FilesMoment) → Around before (F.moment files.old) (F.moment files.new) after
        → IfOk result (λ said. TellsFaults before after source.entry.ifaces.now.list source.entry.conf.now more
        remains.left.items remains.gone.items fault.now said.items) }
    ensures reads { OnlyReads (F.moment files.old) (F.moment files.new) }
{
    let mut said = say_of(alloc, fault, &remains, source.ifaces)?;
    let Some(behind) = remains_behind(alloc, more, fault, remains)? else {
        return Ok(said);
    };
    let Some(next) = load_next(alloc, &behind, source, files)? else {
        return Ok(said);
    };
    let rest = tell_faults(alloc, more.saturating_sub(1), &next, behind, source, files)?;
    said.extend_from_slice(rest.as_slice())?;
    Ok(said)
}

/// What is said of a fault of what remains of a text.
fn say_of(
    alloc: Global,
    fault: &CommandFault,
    remains: &Remains,
    ifaces: &Ifaces,
) -> Result<Vec<u8>, NoMemory>
    requires { length remains.now.left.items ≤ MAX_TEXT_BYTES }
    ensures { IfOk result (λ said. SaysOfLeft ifaces.now.list remains.now.left.items remains.now.gone.items fault.now said.items) }
{
    let gone = remains.gone.as_slice();
    explanation_of_left(alloc, fault, remains.left.as_slice(), gone, ifaces)
}

/// What remains without what holds the fault; None where no fault is to be told behind it.
fn remains_behind(
    alloc: Global,
    more: u8,
    fault: &CommandFault,
    remains: Remains,
) -> Result<Option<Remains>, NoMemory>
    requires { length remains.left.items ≤ MAX_TEXT_BYTES }
    ensures leaves { IfOk result (LeavesBehind more remains fault.now) }
    ensures length { IfOk result (λ behind. IfSome behind (λ it. length it.left.items ≤ MAX_TEXT_BYTES)) }
{
    match next_place(more, fault, &remains) {
        None => Ok(None),
        Some(span) => {
            let behind = take_out(alloc, remains, span)?;
            Ok(Some(behind))
        }
    }
}

/// The place at which something is taken out behind a fault, unless that is the last.
fn next_place(more: u8, fault: &CommandFault, remains: &Remains) -> Option<Span>
    ensures { result ≡ next_place more remains.now.left.items fault.now }
{
    match fault {
        CommandFault::Configuration { fault, .. } => {
            if more == 0 || is_at_end(remains, fault.span) {
                None
            } else {
                Some(fault.span)
            }
        }
        _ => None,
    }
}

fn is_at_end(remains: &Remains, span: Span) -> bool
    ensures { result ≡ is_at_end remains.now.left.items span }
{
    span.at as usize >= remains.left.len()
}

/// What remains without what holds a place.
fn take_out(alloc: Global, remains: Remains, span: Span) -> Result<Remains, NoMemory>
    requires { length remains.left.items ≤ MAX_TEXT_BYTES }
    ensures taken { IfOk result (IsLeftBehind remains span) }
    ensures length { IfOk result (λ behind. length behind.left.items ≤ MAX_TEXT_BYTES) }
{
    let Remains { left, mut gone } = remains;
    let mut behind = without(alloc, left.as_slice(), span)?;
    gone.append(&mut behind.gone)?;
    let left = behind.left;
    Ok(Remains { left, gone })
}

/// The fault for which what remains of a text is refused; None where it is loaded.
fn load_next<F: Files>(
    alloc: Global,
    remains: &Remains,
    source: ConfigSource<'_>,
    files: &mut F,
) -> Result<Option<CommandFault>, NoMemory>
    requires { length remains.now.left.items ≤ MAX_TEXT_BYTES }
    ensures loads { (before after : FilesMoment) → Around before (F.moment files.old) (F.moment files.new) after
        → IfOk result (LoadsNext before after source.entry.ifaces.now.list source.entry.conf.now remains.now.left.items) }
    ensures reads { OnlyReads (F.moment files.old) (F.moment files.new) }
{
    match load_text(
        alloc,
        source.ifaces,
        source.conf,
        remains.left.as_slice(),
        files,
    ) {
        Ok(_) => Ok(None),
        Err(CommandFault::NoMemory) => Err(NoMemory),
        Err(fault) => Ok(Some(fault)),
    }
}

fn is_placed(fault: &CommandFault) -> bool
    ensures { result ≡ is_placed fault.now }
{
    matches!(fault, CommandFault::Configuration { .. })
}
