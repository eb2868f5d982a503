// Packets through the engine, one after the other.
ghost use Rattle.std.specs.Prelude.{◌≤◌, ◌<◌, length};
ghost use Rattle.npf_connections.specs.Stay.{IsOut};
ghost use Rattle.npf_flow.specs.Flows.{flow_law};
ghost use Rattle.npf_publish.specs.ConfReader.{reader_range};

use crate::traffic::Crossing;
use anyhow::Error;
use npf_connections::Connections;
use npf_engine::packet;
use npf_flow::FlowLaw;
use npf_oneturn::OneTurn;
use npf_publish::{ConfReader, Publisher};
use npf_ruleset::Config;
use npf_types::IfId;
use npf_types::limits::{MAX_CONNECTIONS, MAX_PACKET_BYTES};
use std::sync::Wait;
use std::time::Instant;

/// How many packets pass, how many don't, and how many nanoseconds all took.
#[derive(Clone, Copy, Debug)]
pub struct Counts {
    pub pass: u64,
    pub other: u64,
    pub took: u128,
}

/// Handles the packets in order, under one configuration. The host has the clock, and the handle waits.
pub fn handled<R: Wait>(
    host: &HostRuntime,
    rt: &R,
    config: Config,
    crossings: Vec<Crossing>,
) -> Result<Counts, Error> {
    let configs = Vec::from_array(host.alloc(), [config])?;
    let (conns, mut pass) = OneTurn::<FlowLaw>::new(host.alloc(), MAX_CONNECTIONS as u32)?;
    published(host, rt, &conns, &mut pass, &configs, crossings)
}

// The same with the configuration published.
fn published<R: Wait, C: Connections<FlowLaw>>(
    host: &HostRuntime,
    rt: &R,
    conns: &C,
    pass: &mut C::Pass,
    configs: &[Config],
    crossings: Vec<Crossing>,
) -> Result<Counts, Error>
    requires out { IsOut flow_law (C.fits conns.now) C.view pass.old }
    requires place { 1 ≤ (C.view pass.old).places }
    requires numbers { 0 < length configs.now }
{
    let start = Instant::now(host)?;
    let (publisher, mut readers) = Publisher::new(rt, host.alloc(), 1, 0, 0)?;
    let mut counts = Counts {
        pass: 0,
        other: 0,
        took: 0,
    };
    if let Some(mut reader) = readers.pop() {
        counts = work(rt, conns, pass, &mut reader, configs, crossings);
    }
    publisher.close(rt);
    counts.took = start.elapsed(host)?.as_nanos();
    Ok(counts)
}

// Handles the packets in order.
fn work<R: Wait, C: Connections<FlowLaw>>(
    rt: &R,
    conns: &C,
    pass: &mut C::Pass,
    reader: &mut ConfReader,
    configs: &[Config],
    crossings: Vec<Crossing>,
) -> Counts
    requires out { IsOut flow_law (C.fits conns.now) C.view pass.old }
    requires place { 1 ≤ (C.view pass.old).places }
    requires numbers { (reader_range reader.old).last < length configs.now }
{
    let mut counts = Counts {
        pass: 0,
        other: 0,
        took: 0,
    };
    let mut n = 0u64;
    for crossing in crossings {
        let mut crossing = crossing;
        let bytes = crossing.bytes.as_mut_slice();
        if bytes.len() > MAX_PACKET_BYTES {
            continue;
        }
        n = n.saturating_add(1);
        let (now, link, dir) = (crossing.time, crossing.link, crossing.dir);
        let outcome = packet(
            rt,
            conns,
            pass,
            reader,
            configs,
            n,
            now,
            link,
            IfId(1),
            dir,
            bytes,
        );
        if outcome.passes() {
            counts.pass = counts.pass.saturating_add(1);
        } else {
            counts.other = counts.other.saturating_add(1);
        }
    }
    counts
}
