// Runs of one phase, over a new table of four slots, in which two workers take packets in turn.
ghost use Rattle.std.specs.Prelude.{◌≡◌, ◌<◌, [], IsTrue, All, IfOk, vec_len};
ghost use Rattle.npf_connections.specs.Pass.{IsFirstPass};
ghost use Rattle.npf_connections.specs.Stay.{IsOut};
ghost use Rattle.npf_flow.specs.Flows.{flow_law};
ghost use Rattle.npf_traffic.specs.Phases.{PublishFrom};
ghost use Rattle.npf_traffic.specs.Packet.{IsShortPacket};

use crate::packets::one_datagram;
use npf_config::load;
use npf_connections::Connections;
use npf_engine::Outcome;
use npf_flow::FlowLaw;
use npf_model::Ifaces;
use npf_outside::MemFiles;
use npf_ruleset::Config;
use npf_runner::{Command, Gate, Packet, Phase, Played, Spread, play};
use npf_types::List;
use npf_types::limits::{MAX_PACKET_BYTES, MAX_TEXT_BYTES};
use std::alloc::Global;
use std::sync::Wait;
use std::test::Fail;
use std::thread::Threads;

/// The slots of the table.
pub const SLOTS: u32 = 4;

// The configuration of a text without tables, for a run that knows no interfaces.
fn config_of(alloc: Global, text: &str) -> Result<Config, Fail> {
    let text = text.as_bytes();
    if text.len() > MAX_TEXT_BYTES {
        return Err("the text is too long".into());
    }
    let ifaces = Ifaces {
        list: List::of_vec(Vec::new(alloc)),
    };
    match load(alloc, text, &ifaces, &mut MemFiles::new(alloc)?) {
        Ok(config) => Ok(config),
        Err(_) => Err("the text is refused".into()),
    }
}

fn are_short(packets: &[Packet<'_>]) -> bool
    ensures { IsTrue result → All IsShortPacket packets.now }
{
    for packet in packets {
        if packet.bytes.as_slice().len() > MAX_PACKET_BYTES {
            return false;
        }
    }
    true
}

/// The packets of a phase, the configurations that they may meet, and the commands beside them.
#[derive(Drop)]
pub struct Case<'a> {
    pub configs: Vec<Config>,
    pub packets: Vec<Packet<'a>>,
    pub commands: Vec<Command>,
}

/// Packets under one configuration, without commands.
pub fn under<'a>(alloc: Global, text: &str, packets: Vec<Packet<'a>>) -> Result<Case<'a>, Fail>
    ensures configs { IfOk result (λ case. vec_len case.configs ≡ 1) }
    ensures commands { IfOk result (λ case. case.commands.items ≡ []) }
{
    let mut configs = Vec::new(alloc);
    configs.push(config_of(alloc, text)?)?;
    Ok(Case {
        configs,
        packets,
        commands: Vec::new(alloc),
    })
}

/// Where a publication stands among the commands.
#[derive(Clone, Copy)]
pub enum Published {
    BeforeExpiry,
    BehindExpiry,
}

/// A packet that is blocked by the first configuration and passed by the second, which is published.
pub fn publishing<'a>(alloc: Global, published: Published) -> Result<Case<'a>, Fail>
    ensures { IfOk result (λ case. PublishFrom (vec_len case.configs) 0 case.commands.items ×
        (0 < vec_len case.configs)) }
{
    let mut configs = Vec::new(alloc);
    configs.push(config_of(alloc, "group default { block all }\n")?)?;
    configs.push(config_of(alloc, "group default { pass all }\n")?)?;
    let mut commands = Vec::new(alloc);
    match published {
        Published::BeforeExpiry => {
            commands.push(Command::Publish(1))?;
            commands.push(Command::Expire(0))?;
        }
        Published::BehindExpiry => {
            commands.push(Command::Expire(0))?;
            commands.push(Command::Publish(1))?;
        }
    }
    Ok(Case {
        configs,
        packets: one_datagram(alloc)?,
        commands,
    })
}

/// Packets under one configuration, with two expiries beside them: of all connections, and then of none.
pub fn expiring<'a>(alloc: Global, text: &str, packets: Vec<Packet<'a>>) -> Result<Case<'a>, Fail>
    ensures { IfOk result (λ case. PublishFrom (vec_len case.configs) 0 case.commands.items ×
        (0 < vec_len case.configs)) }
{
    let mut configs = Vec::new(alloc);
    configs.push(config_of(alloc, text)?)?;
    let mut commands = Vec::new(alloc);
    commands.push(Command::Expire(u64::MAX))?;
    commands.push(Command::Expire(0))?;
    Ok(Case {
        configs,
        packets,
        commands,
    })
}

/// What becomes of the packets.
pub fn run<R: Threads + Wait + Sync, C: Connections<FlowLaw>, G: Gate>(
    rt: &R,
    alloc: Global,
    case: Case<'_>,
    conns: &C,
    pass: &mut C::Pass,
    gate: &G,
) -> Result<Vec<Outcome>, Fail>
    requires out { IsOut flow_law (C.fits conns.now) C.view pass.old }
    requires first { IsFirstPass 4 (C.view pass.old) }
    requires configs { 0 < vec_len case.configs }
    requires commands { PublishFrom (vec_len case.configs) 0 case.commands.items }
{
    let Case {
        configs,
        packets,
        commands,
    } = case;
    if !are_short(&packets) {
        return Err("a packet is too long".into());
    }
    let phases = [Phase {
        packets: packets.len() as u64,
        commands: List::of_vec(commands),
    }];
    let Played {
        outcomes,
        packets: _,
    } = play(
        rt,
        alloc,
        packets,
        &phases,
        &configs,
        2,
        Spread::Rr,
        conns,
        pass,
        gate,
    )?;
    Ok(outcomes.into_vec())
}
