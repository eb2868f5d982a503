// The phases of a run, parted.
ghost use Rattle.std.specs.Prelude.{◌≡◌, ◌<◌, IfOk, length};
ghost use Rattle.npf_traffic.specs.Phases.{packets_in};
ghost use Rattle.npf_ctl_aging.specs.Aging.{aged};

use crate::part::with_parts;
use crate::tick::time_before;
use npf_traffic::{Packet, Phase};
use npf_types::NoMemory;
use std::alloc::Global;

/// The phases of a run of these packets, each parted in front of each packet that follows a multiple of so many seconds. There stands a
/// phase without packets whose one command is the expiry as of that multiple. A phase's commands stay beside its first part.
pub fn aged(
    alloc: Global,
    every: u32,
    packets: &[Packet<'_>],
    phases: Vec<Phase>,
) -> Result<Vec<Phase>, NoMemory>
    requires period { 0 < every }
    requires all { packets_in phases.items ≡ length packets.now }
    ensures { IfOk result (λ parts. parts.items ≡ aged every packets.now phases.items) }
{
    let mut parts = Vec::new(alloc);
    let mut from = 0;
    for phase in phases {
        let count = phase.packets as usize;
        let own = packets.split_at(from).1.split_at(count).0;
        let before = time_before(packets, from);
        parts = with_parts(alloc, every, before, own, phase.commands, parts)?;
        from += count;
    }
    Ok(parts)
}
