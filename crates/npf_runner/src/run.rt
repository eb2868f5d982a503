// A run, phase by phase.
ghost use Rattle.std.specs.Prelude.{◌≡◌, ◌≤◌, All, length, take, drop, vec_len, IfOk};
ghost use Rattle.npf_connections.specs.Pass.{all_places};
ghost use Rattle.npf_connections.specs.Stay.{IsLater, IsOut};
ghost use Rattle.npf_flow.specs.Flows.{flow_law};
ghost use Rattle.npf_engine.specs.Handles.{configurations};
ghost use Rattle.npf_runner.specs.Plays.{PlaysPhases, IsUnnumbered};
ghost use Rattle.npf_traffic.specs.Phases.{AreInOrder, packets_in};
ghost use Rattle.npf_runner.specs.Phase.{LeavesNoDead};
ghost use Rattle.npf_traffic.specs.Packet.{IsShortPacket};

use crate::gate::Gate;
use crate::phase::{Task, count_published, run_phase};
use crate::played::{Answers, Played};
use crate::shared::Shared;
use npf_connections::Connections;
use npf_flow::FlowLaw;
use npf_ruleset::Config;
use npf_traffic::{Packet, Phase, Spread};
use npf_types::{List, NoMemory};
use std::alloc::Global;
use std::collections::VecDeque;
use std::mem::replace;
use std::sync::Wait;
use std::thread::Threads;

/// Runs packets through 1 to 64 workers, phase by phase, while a control task does the phase's commands, and answers what became of
/// each packet.
///
/// The pass rests before and after, and owns all reader places; no entry of its history carries the number of one of these packets.
/// Each packet has 262,144 bytes at most. The phases' packets sum up to the packets, and their publications name the places 1, 2 and so on
/// of `configs`, which isn't empty.
///
/// Want of memory may come before, between and after the phases, or at a publication: then the pass is whole, its history begins with
/// what it was, and there are no outcomes. Where anything was done, no connection is Dead, unless the pass is worn.
pub fn play<'a, R: Threads + Wait + Sync, C: Connections<FlowLaw>, G: Gate>(
    rt: &R,
    alloc: Global,
    packets: Vec<Packet<'a>>,
    phases: &[Phase],
    configs: &[Config],
    workers: u32,
    spread: Spread,
    conns: &C,
    pass: &mut C::Pass,
    gate: &G,
) -> Result<Played<'a>, NoMemory>
    requires out { IsOut flow_law (C.fits conns.now) C.view pass.old }
    requires places { (C.view pass.old).places ≡ all_places }
    requires workers { (1 ≤ workers) × (workers ≤ 64) }
    requires short { All IsShortPacket packets.items }
    requires unnumbered { IsUnnumbered (length packets.items) (C.view pass.old).history }
    requires sum { packets_in phases.now ≡ length packets.items }
    requires publications { AreInOrder (length configs.now) phases.now }
    ensures out { IsOut flow_law (C.fits conns.now) C.view pass.new }
    ensures later { IsLater (C.view pass.old) (C.view pass.new) }
    ensures clean { LeavesNoDead (C.view pass.old) (C.view pass.new) }
    ensures plays { IfOk result (λ played. PlaysPhases (configurations configs.now) workers spread
        (C.view pass.old) (C.view pass.new) phases.now packets.entry.items played.packets
        played.outcomes) }
{
    let mut all = Answers {
        outcomes: Vec::with_capacity(alloc, packets.len())?,
        packets: Vec::with_capacity(alloc, packets.len())?,
    };
    let shared = Shared {
        rt,
        alloc,
        conns,
        gate,
        configs,
    };
    let mut left = VecDeque::from(packets);
    let mut first = 1;
    let mut last = 0;
    for phase in phases {
        let packets = next_packets(alloc, &mut left, phase.packets as usize)?;
        let commands = phase.commands.as_slice();
        let task = Task {
            packets,
            first,
            workers,
            spread,
            last,
        };
        all = run_phase(&shared, pass, task, commands, all)?;
        first += phase.packets;
        last += count_published(commands);
    }
    Ok(Played {
        outcomes: List::of_vec(all.outcomes),
        packets: List::of_vec(all.packets),
    })
}

/// The next so many packets. Where these are all that are left, they stay where they are.
fn next_packets<'a>(
    alloc: Global,
    left: &mut VecDeque<Packet<'a>>,
    count: usize,
) -> Result<Vec<Packet<'a>>, NoMemory>
    requires { count ≤ length left.old.items }
    ensures count { IfOk result (λ packets. vec_len packets ≡ count) }
    ensures packets { IfOk result (λ packets. packets.items ≡ take count left.old.items) }
    ensures left { IfOk result (λ packets. left.new.items ≡ drop count left.old.items) }
{
    if count == left.len() {
        return Ok(replace(left, VecDeque::new(alloc)).into_vec());
    }
    let mut packets = Vec::with_capacity(alloc, count)?;
    for _ in 0..count {
        packets.push_reserved(left.pop_front().unwrap());
    }
    Ok(packets)
}
