// The phases of a run, which are timed alone.
ghost use Rattle.std.specs.Prelude.{◌≡◌, ◌≤◌, []};
ghost use Rattle.npf_connections.specs.Pass.{all_places};
ghost use Rattle.npf_connections.specs.Stay.{IsOut};
ghost use Rattle.npf_ctl_prepare.specs.Playable.{IsPlayable};
ghost use Rattle.npf_flow.specs.Flows.{flow_law};

use anyhow::{Error, anyhow};
use npf_connections::Connections;
use npf_ctl_arrivals::Captures;
use npf_ctl_prepare::{Prepared, RunFiles, prepare_run};
use npf_flow::FlowLaw;
use npf_outside::FolderFiles;
use npf_runner::{NoGate, Played, Spread, play};
use std::sync::Wait;
use std::thread::Threads;
use std::time::Instant;

/// Plays a script under a configuration, by the words `WORKERS CONF SCRIPT`, and tells how many
/// packets pass and what the phases took a packet.
pub fn time_phases<R: Threads + Wait + Sync, C: Connections<FlowLaw>>(
    host: &HostRuntime,
    rt: &R,
    words: &[String],
    conns: &C,
    pass: &mut C::Pass,
) -> Result<(), Error>
    requires out { IsOut flow_law (C.fits conns.now) C.view pass.old }
    requires sole { (C.view pass.old).places ≡ all_places }
    requires new { (C.view pass.old).history ≡ [] }
{
    let [workers, conf, script] = words else {
        return Err(anyhow!("no workers, configuration and script"));
    };
    let workers = workers.as_str().parse::<u32>()?;
    if !(1..=64).contains(&workers) {
        return Err(anyhow!("no such number of workers"));
    }
    let names = RunFiles {
        conf: conf.as_str(),
        script: script.as_str(),
        ifaces: None,
        tap: None,
        every: None,
    };
    let mut captures = Captures::new(host.alloc());
    let mut files = FolderFiles::new(host);
    match prepare_run(host.alloc(), names, &mut files, &mut captures) {
        Ok(prepared) => time_prepared(host, rt, prepared, workers, conns, pass),
        Err(_) => Err(anyhow!("the run is refused")),
    }
}

fn time_prepared<R: Threads + Wait + Sync, C: Connections<FlowLaw>>(
    host: &HostRuntime,
    rt: &R,
    prepared: Prepared<'_>,
    workers: u32,
    conns: &C,
    pass: &mut C::Pass,
) -> Result<(), Error>
    requires out { IsOut flow_law (C.fits conns.now) C.view pass.old }
    requires sole { (C.view pass.old).places ≡ all_places }
    requires new { (C.view pass.old).history ≡ [] }
    requires workers { (1 ≤ workers) × (workers ≤ 64) }
    requires playable { IsPlayable prepared }
{
    let Prepared {
        ifaces: _,
        configs,
        packets,
        phases,
    } = prepared;
    let start = Instant::now(host)?;
    let Played {
        outcomes,
        packets: _,
    } = play(
        rt,
        host.alloc(),
        packets,
        &phases,
        &configs,
        workers,
        Spread::Flow,
        conns,
        pass,
        &NoGate,
    )?;
    let took = start.elapsed(host)?.as_nanos();
    let passed = outcomes
        .as_slice()
        .iter()
        .filter(|outcome| outcome.passes())
        .count();
    let all = outcomes.as_slice().len().max(1);
    println!(host; "{passed} of {all} packets pass")?;
    println!(host; "phases: {} ns a packet", took / all as u128)?;
    Ok(())
}
