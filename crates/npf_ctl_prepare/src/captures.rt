// The packets of a run's captures.
ghost use Rattle.std.specs.Prelude.{◌≡◌, ◌≤◌, ℕ, List as Seq, All, IfOk, IfSome, OnOk, Some, length, option_map};
ghost use Rattle.npf_outside.specs.Files.{FilesMoment, SameReadFaults};
ghost use Rattle.npf_ctl_script.specs.declared.script.ScriptLine.{ScriptLine as Said};
ghost use Rattle.npf_ctl_schedule.specs.Schedule.{unnumbered};
ghost use Rattle.npf_config.specs.Reading.{OnlyReads};
ghost use Rattle.npf_ctl_arrivals.specs.Arrivals.{none_gathered};
ghost use Rattle.npf_ctl_arrivals.specs.Gathering.{gathered_so_far};
ghost use Rattle.npf_ctl_arrivals.specs.Within.{CrossesOneOf, IsWithinRun};
ghost use Rattle.npf_ctl_input.specs.Around.{Around};
ghost use Rattle.npf_ctl_input.specs.Source.{Alone, Scripted};
ghost use Rattle.npf_ctl_input.specs.Unless.{UnlessMemory};
ghost use Rattle.npf_ctl_prepare.specs.Captures.{GathersCaptures, GathersLine};
ghost use Rattle.npf_ctl_prepare.specs.Known.{NamesKnownInterface, NamesTextFile};
ghost use Rattle.npf_ctl_prepare.specs.View.{source_with};

use npf_ctl_arrivals::Arrivals;
use npf_ctl_input::read_file;
use npf_ctl_messages::CommandFault;
use npf_ctl_script::ScriptLine;
use npf_model::{Ifaces, number_of_name};
use npf_outside::Files;
use npf_types::limits::MAX_CAPTURE_BYTES;
use std::alloc::Global;
use std::str;

/// The packets of the captures that the lines name, one capture after another. Where a capture alone was read already, it is the one line's.
pub(crate) fn gather_captures<F: Files>(
    alloc: Global,
    alone: Option<Vec<u8>>,
    ifaces: &Ifaces,
    lines: &[(u32, ScriptLine)],
    files: &mut F,
) -> Result<Arrivals, CommandFault>
    requires fits { IfSome alone (λ bytes. length bytes.items ≤ MAX_CAPTURE_BYTES) }
    requires one { IfSome alone (λ _. length lines.now ≡ 1) }
    requires text { All (λ line. NamesTextFile line.1) lines.now }
    requires known { All (λ line. NamesKnownInterface ifaces.now.list line.1) lines.now }
    ensures comes { (before after : FilesMoment) → Around before (F.moment files.old) (F.moment files.new) after
        → UnlessMemory gathered_so_far result (GathersCaptures before after
        (source_with (option_map (λ bytes. bytes.items) alone) lines.now) ifaces.now.list (unnumbered lines.now) none_gathered) }
    ensures within { IfOk result (λ arrivals. IsWithinRun (gathered_so_far arrivals)) }
    ensures crosses { IfOk result (λ arrivals. All (CrossesOneOf (length ifaces.now.list)) (gathered_so_far arrivals).packets) }
    ensures reads { OnlyReads (F.moment files.old) (F.moment files.new) }
    ensures faultless { OnOk result (SameReadFaults (F.moment files.old) (F.moment files.new)) }
{
    match alone {
        Some(bytes) => gather_alone(alloc, bytes, ifaces, &lines[0].1),
        None => gather_lines(alloc, ifaces, lines, files),
    }
}

/// The packets of the capture with these bytes, if the line names one.
fn gather_alone(
    alloc: Global,
    bytes: Vec<u8>,
    ifaces: &Ifaces,
    line: &ScriptLine,
) -> Result<Arrivals, CommandFault>
    requires fits { length bytes.items ≤ MAX_CAPTURE_BYTES }
    requires text { NamesTextFile line.now }
    requires known { NamesKnownInterface ifaces.now.list line.now }
    ensures comes { (before after : FilesMoment) → UnlessMemory gathered_so_far result (GathersLine before after (Alone bytes.items) ifaces.now.list line.now none_gathered) }
    ensures within { IfOk result (λ arrivals. IsWithinRun (gathered_so_far arrivals)) }
    ensures crosses { IfOk result (λ arrivals. All (CrossesOneOf (length ifaces.now.list)) (gathered_so_far arrivals).packets) }
{
    let mut arrivals = Arrivals::new(alloc);
    let ScriptLine::Capture { name, dir, file } = line else {
        return Ok(arrivals);
    };
    let Ok(file) = str::from_utf8(file.as_slice()) else {
        unreachable!()
    };
    let ifid = number_of_name(ifaces.list.as_slice(), name);
    arrivals.add(alloc, file, ifid, *dir, bytes)?;
    Ok(arrivals)
}

/// The packets of the captures that the lines of a script name.
fn gather_lines<F: Files>(
    alloc: Global,
    ifaces: &Ifaces,
    lines: &[(u32, ScriptLine)],
    files: &mut F,
) -> Result<Arrivals, CommandFault>
    requires text { All (λ line. NamesTextFile line.1) lines.now }
    requires known { All (λ line. NamesKnownInterface ifaces.now.list line.1) lines.now }
    ensures comes { (before after : FilesMoment) → Around before (F.moment files.old) (F.moment files.new) after
        → UnlessMemory gathered_so_far result (GathersCaptures before after
        (Scripted lines.now) ifaces.now.list (unnumbered lines.now) none_gathered) }
    ensures within { IfOk result (λ arrivals. IsWithinRun (gathered_so_far arrivals)) }
    ensures crosses { IfOk result (λ arrivals. All (CrossesOneOf (length ifaces.now.list)) (gathered_so_far arrivals).packets) }
    ensures reads { OnlyReads (F.moment files.old) (F.moment files.new) }
    ensures faultless { OnOk result (SameReadFaults (F.moment files.old) (F.moment files.new)) }
{
    let mut arrivals = Arrivals::new(alloc);
    for line in lines {
        gather_line(alloc, ifaces, &line.1, &mut arrivals, files)?;
    }
    Ok(arrivals)
}

/// Gathers the packets of the capture that the line names, if it names one.
fn gather_line<F: Files>(
    alloc: Global,
    ifaces: &Ifaces,
    line: &ScriptLine,
    arrivals: &mut Arrivals,
    files: &mut F,
) -> Result<(), CommandFault>
    requires text { NamesTextFile line.now }
    requires known { NamesKnownInterface ifaces.now.list line.now }
    requires within { IsWithinRun (gathered_so_far arrivals.old) }
    requires crosses { All (CrossesOneOf (length ifaces.now.list)) (gathered_so_far arrivals.old).packets }
    ensures comes { (before after : FilesMoment) (lines : Seq (ℕ × Said)) → Around before (F.moment files.old) (F.moment files.new) after
        → UnlessMemory (λ _. gathered_so_far arrivals.new) result (GathersLine before after
        (Scripted lines) ifaces.now.list line.now (gathered_so_far arrivals.old)) }
    ensures within { IsWithinRun (gathered_so_far arrivals.new) }
    ensures crosses { All (CrossesOneOf (length ifaces.now.list)) (gathered_so_far arrivals.new).packets }
    ensures reads { OnlyReads (F.moment files.old) (F.moment files.new) }
    ensures faultless { OnOk result (SameReadFaults (F.moment files.old) (F.moment files.new)) }
{
    let ScriptLine::Capture { name, dir, file } = line else {
        return Ok(());
    };
    let ifid = number_of_name(ifaces.list.as_slice(), name);
    let Ok(file) = str::from_utf8(file.as_slice()) else {
        unreachable!()
    };
    let bytes = read_file(alloc, file, MAX_CAPTURE_BYTES as u64, files)?;
    arrivals.add(alloc, file, ifid, *dir, bytes)
}
