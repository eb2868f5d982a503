// The lines of one phase.
ghost use Rattle.std.specs.Prelude.{◌≡◌, ◌≤◌, ◌+◌, IfOk};
ghost use Rattle.npf_ctl_schedule.specs.Schedule.{changes_in, packets_wanted, phase_commands, until_phase, unnumbered};

use crate::count::{begins_phase, makes_change};
use npf_ctl_script::ScriptLine;
use npf_traffic::Command;
use npf_types::limits::MAX_CHANGES;
use npf_types::{List, NoMemory};
use std::alloc::Global;

/// The lines before the next phase.
pub(crate) fn until_phase(lines: &[(u32, ScriptLine)]) -> &[(u32, ScriptLine)]
    ensures { unnumbered result.now ≡ until_phase (unnumbered lines.now) }
{
    for (at, line) in lines.iter().enumerate() {
        if begins_phase(&line.1) {
            return lines.split_at(at).0;
        }
    }
    lines
}

/// How many packets a phase with these lines has, where so many are left.
pub(crate) fn packets_wanted(left: u64, part: &[(u32, ScriptLine)]) -> u64
    ensures value { result ≡ packets_wanted left (unnumbered part.now) }
    ensures within { result ≤ left }
{
    for line in part {
        if let ScriptLine::Packets(count) = &line.1 {
            return match count {
                Some(count) => left.min(*count),
                None => left,
            };
        }
    }
    0
}

/// The commands of a phase with these lines, where so many changes were made before.
pub(crate) fn phase_commands(
    alloc: Global,
    made: u32,
    part: &[(u32, ScriptLine)],
) -> Result<List<Command>, NoMemory>
    requires { made + changes_in (unnumbered part.now) ≤ MAX_CHANGES }
    ensures { IfOk result (λ commands. commands ≡ phase_commands made (unnumbered part.now)) }
{
    let mut commands = Vec::new(alloc);
    let mut made = made;
    for line in part {
        if let ScriptLine::Expire(time) = &line.1 {
            commands.push(Command::Expire(*time))?;
        } else if makes_change(&line.1) {
            made += 1;
            commands.push(Command::Publish(made))?;
        }
    }
    Ok(List::of_vec(commands))
}
