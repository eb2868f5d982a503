// The phases of a run.
ghost use Rattle.std.specs.Prelude.{◌≡◌, ◌≤◌, ◌+◌, IfOk};
ghost use Rattle.npf_ctl_schedule.specs.Schedule.{changes_in, packets_wanted, phase_commands, phases_of, unnumbered};

use crate::count::{begins_phase, changes_in};
use crate::part::{packets_wanted, phase_commands, until_phase};
use npf_ctl_script::ScriptLine;
use npf_traffic::Phase;
use npf_types::limits::MAX_CHANGES;
use npf_types::{List, NoMemory};
use std::alloc::Global;

/// The phases of a run of so many packets. The lines make at most `MAX_CHANGES` changes, which are published by their numbers, from 1.
/// Each phase has as many packets as its lines say, or all that are left if there are fewer or they say `rest`, and none if they don't say;
/// packets that are left behind the last phase have a phase of their own.
pub fn schedule(
    alloc: Global,
    lines: &[(u32, ScriptLine)],
    packets: u64,
) -> Result<Vec<Phase>, NoMemory>
    requires { changes_in (unnumbered lines.now) ≤ MAX_CHANGES }
    ensures { IfOk result (λ phases. phases.items ≡ phases_of (unnumbered lines.now) packets) }
{
    let mut phases = Vec::new(alloc);
    let mut left = packets;
    let mut made = 0;
    for (at, line) in lines.iter().enumerate() {
        if begins_phase(&line.1) {
            let part = until_phase(lines.split_at(at + 1).1);
            let wanted = packets_wanted(left, part);
            let commands = phase_commands(alloc, made, part)?;
            phases.push(Phase {
                packets: wanted,
                commands,
            })?;
            left -= wanted;
            made += changes_in(part) as u32;
        }
    }
    if left > 0 {
        phases.push(Phase {
            packets: left,
            commands: List::of_vec(Vec::new(alloc)),
        })?;
    }
    Ok(phases)
}
