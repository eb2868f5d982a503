// The parts of one phase.
ghost use Rattle.std.specs.Prelude.{◌≡◌, ◌<◌, ◌++◌, IfOk};
ghost use Rattle.npf_ctl_aging.specs.Aging.{expiry, parts_of_phase, ticks_behind};

use crate::tick::tick_behind;
use npf_traffic::{Command, Packet, Phase};
use npf_types::{List, NoMemory};
use std::alloc::Global;

/// These phases, and behind them the parts of one with these packets and commands, where the packet before them has that time.
pub(crate) fn with_parts(
    alloc: Global,
    every: u32,
    before: Option<u64>,
    packets: &[Packet<'_>],
    commands: List<Command>,
    parts: Vec<Phase>,
) -> Result<Vec<Phase>, NoMemory>
    requires { 0 < every }
    ensures { IfOk result (λ more. more.items ≡ parts.items ++ parts_of_phase commands (ticks_behind every before packets.now)) }
{
    let mut parts = parts;
    let mut part = Phase {
        packets: 0,
        commands,
    };
    let mut before = before;
    for packet in packets {
        if let Some(tick) = tick_behind(every, before, packet.time) {
            parts.push(part)?;
            parts.push(expiry(alloc, tick)?)?;
            part = Phase {
                packets: 0,
                commands: List::of_vec(Vec::new(alloc)),
            };
        }
        part.packets += 1;
        before = Some(packet.time);
    }
    parts.push(part)?;
    Ok(parts)
}

/// A phase without packets whose one command is an expiry.
fn expiry(alloc: Global, tick: u64) -> Result<Phase, NoMemory>
    ensures { IfOk result (λ phase. phase ≡ expiry tick) }
{
    Ok(Phase {
        packets: 0,
        commands: List::of_vec(vec![in alloc; Command::Expire(tick)]?),
    })
}
