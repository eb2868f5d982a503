// The phases of a run.
ghost use Rattle.std.specs.Prelude.{◌≡◌, ◌≤◌, ◌<◌, ◌+◌, IfOk, IfSome, length};
ghost use Rattle.npf_traffic.specs.Phases.{AreInOrder, packets_in};
ghost use Rattle.npf_ctl_input.specs.Unless.{UnlessMemory};
ghost use Rattle.npf_ctl_schedule.specs.Schedule.{changes_in, unnumbered};
ghost use Rattle.npf_ctl_prepare.specs.Prepares.{Schedules, expiries};

use crate::limits::few;
use npf_ctl_aging::laws::{packets_stay, publications_stay_in_order};
use npf_ctl_aging::{aged, count_ticks};
use npf_ctl_messages::{CommandFault, MAX_TICKS, Quantity};
use npf_ctl_schedule::laws::{packets_add_up, publications_are_in_order};
use npf_ctl_schedule::schedule;
use npf_ctl_script::ScriptLine;
use npf_traffic::{Packet, Phase};
use npf_types::limits::MAX_CHANGES;
use std::alloc::Global;

/// The phases of a run of these packets, with an expiry at each multiple of so many seconds that a packet follows. Refused where those are more than
/// a run may have.
pub(crate) fn run_phases(
    alloc: Global,
    every: Option<u32>,
    lines: &[(u32, ScriptLine)],
    packets: &[Packet<'_>],
) -> Result<Vec<Phase>, CommandFault>
    requires period { IfSome every (λ seconds. 0 < seconds) }
    requires changes { changes_in (unnumbered lines.now) ≤ MAX_CHANGES }
    ensures comes { UnlessMemory (λ phases. phases.items) result (Schedules every (unnumbered lines.now) packets.now) }
    ensures phased { IfOk result (λ phases. packets_in phases.items ≡ length packets.now) }
    ensures published { IfOk result (λ phases. AreInOrder (1 + changes_in (unnumbered lines.now)) phases.items) }
{
    packets_add_up();
    publications_are_in_order();
    packets_stay();
    publications_stay_in_order();
    few(Quantity::Expiries, expiries(every, packets), MAX_TICKS)?;
    let phases = schedule(alloc, lines, packets.len() as u64)?;
    match every {
        Some(seconds) => {
            let parts = aged(alloc, seconds, packets, phases)?;
            Ok(parts)
        }
        None => Ok(phases),
    }
}

/// How many expiries stand between these packets, if connections expire at multiples of so many seconds.
fn expiries(every: Option<u32>, packets: &[Packet<'_>]) -> u64
    requires { IfSome every (λ seconds. 0 < seconds) }
    ensures { result ≡ expiries every packets.now }
{
    match every {
        Some(seconds) => count_ticks(seconds, packets),
        None => 0,
    }
}
