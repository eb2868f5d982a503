// How much of each thing a run may have, as its script asks.
ghost use Rattle.std.specs.Prelude.{◌≡◌, ◌≤◌, All, IfOk, OnOk};
ghost use Rattle.npf_ctl_messages.specs.Message.{most_of};
ghost use Rattle.npf_ctl_schedule.specs.Schedule.{changes_in, unnumbered};
ghost use Rattle.npf_ctl_input.specs.Unless.{UnlessMemory};
ghost use Rattle.npf_ctl_prepare.specs.Known.{NamesKnownInterface};
ghost use Rattle.npf_ctl_prepare.specs.Prepares.{HasFew, KeepsScriptLimits};

use npf_ctl_messages::{CommandFault, Quantity};
use npf_ctl_schedule::{captures_in, changes_in, phases_in, run_interfaces};
use npf_ctl_script::ScriptLine;
use npf_model::Ifaces;
use npf_types::limits::{MAX_CAPTURES, MAX_CHANGES, MAX_INTERFACES, MAX_PHASES};
use std::alloc::Global;

/// The interfaces of the run, where these are given. Refused for the first of the captures, phases, changes and interfaces of which there
/// are too many.
pub(crate) fn keep_limits(
    alloc: Global,
    given: Ifaces,
    lines: &[(u32, ScriptLine)],
) -> Result<Ifaces, CommandFault>
    ensures comes { UnlessMemory (λ ifaces. ifaces.list) result (KeepsScriptLimits given.list (unnumbered lines.now)) }
    ensures changes { OnOk result (changes_in (unnumbered lines.now) ≤ MAX_CHANGES) }
    ensures known { IfOk result (λ ifaces. All (λ line. NamesKnownInterface ifaces.list line.1) lines.now) }
{
    few(Quantity::Captures, captures_in(lines), MAX_CAPTURES)?;
    few(Quantity::Phases, phases_in(lines), MAX_PHASES)?;
    few(Quantity::Changes, changes_in(lines), MAX_CHANGES)?;
    let ifaces = run_interfaces(alloc, given, lines)?;
    few(
        Quantity::Interfaces,
        ifaces.list.as_slice().len() as u64,
        MAX_INTERFACES,
    )?;
    Ok(ifaces)
}

/// Whether there is no more of it than a run may have.
pub(crate) fn few(what: Quantity, count: u64, most: usize) -> Result<(), CommandFault>
    requires { most ≡ most_of what }
    ensures stage { HasFew what count result }
    ensures within { OnOk result (count ≤ most) }
{
    if count > most as u64 {
        return Err(CommandFault::Many { what, count });
    }
    Ok(())
}
