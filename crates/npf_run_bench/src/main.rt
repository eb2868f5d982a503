// What a run costs over each kind of table of connections. The first word names the table: `conns`,
// which is the program's, or `oneturn`. With `phases`, a number of workers, a configuration and a
// script behind it, the packets are dealt by flow, and what their phases took is told, apart from
// reading and reporting; with npfctl's words behind it, npfctl is run. With no words generated
// input is run over both. bench/run runs it beside npfctl.
#![tactic(auto)]

mod phases;

ghost use Rattle.std.specs.Prelude.{◌≡◌, []};
ghost use Rattle.npf_connections.specs.Pass.{all_places};
ghost use Rattle.npf_connections.specs.Stay.{IsOut};
ghost use Rattle.npf_flow.specs.Flows.{flow_law};

use anyhow::{Error, anyhow};
use npf_conndb::{Conns, Fnv};
use npf_connections::Connections;
use npf_ctl::npfctl_top;
use npf_flow::FlowLaw;
use npf_oneturn::OneTurn;
use npf_outside::{FolderFiles, StderrSink, StdoutSink};
use npf_runner::NoGate;
use npf_types::limits::{MAX_CONNECTIONS, MAX_NODES};
use phases::time_phases;
use std::env;
use std::sync::Wait;
use std::thread::Threads;

fn main(rt: HostRuntime) -> Result<(), Error> {
    let alloc = rt.alloc();
    let words = words(&rt)?;
    let Some((table, words)) = words.split_first() else {
        let generated = ["gen", "7"];
        let mut words = Vec::new(alloc);
        for word in &generated {
            words.push(String::from_str(alloc, word)?)?;
        }
        over_conns(&rt, &rt, &words)?;
        return over_one_turn(&rt, &rt, &words);
    };
    match table.as_str() {
        "conns" => over_conns(&rt, &rt, words),
        "oneturn" => over_one_turn(&rt, &rt, words),
        _ => Err(anyhow!("no such table")),
    }
}

// The words behind the program's name.
fn words(rt: &HostRuntime) -> Result<Vec<String>, Error> {
    let mut given = env::args(rt)?;
    let _program = given.next();
    let mut words = Vec::new(rt.alloc());
    for word in given {
        words.push(word)?;
    }
    Ok(words)
}

// The host has the clock, the files and the streams, and the handle the threads.
fn over_conns<R: Threads + Wait + Sync>(
    host: &HostRuntime,
    rt: &R,
    words: &[String],
) -> Result<(), Error> {
    let (slots, nodes) = (MAX_CONNECTIONS as u32, MAX_NODES as u32);
    let (conns, mut pass) = Conns::<FlowLaw, Fnv>::new(host.alloc(), slots, nodes)?;
    work(host, rt, words, &conns, &mut pass)
}

fn over_one_turn<R: Threads + Wait + Sync>(
    host: &HostRuntime,
    rt: &R,
    words: &[String],
) -> Result<(), Error> {
    let (conns, mut pass) = OneTurn::<FlowLaw>::new(host.alloc(), MAX_CONNECTIONS as u32)?;
    work(host, rt, words, &conns, &mut pass)
}

// What the words behind the table's name ask, over a new table.
fn work<R: Threads + Wait + Sync, C: Connections<FlowLaw>>(
    host: &HostRuntime,
    rt: &R,
    words: &[String],
    conns: &C,
    pass: &mut C::Pass,
) -> Result<(), Error>
    requires out { IsOut flow_law (C.fits conns.now) C.view pass.old }
    requires sole { (C.view pass.old).places ≡ all_places }
    requires new { (C.view pass.old).history ≡ [] }
{
    match words {
        [first, rest @ ..] if first.as_str() == "phases" => {
            time_phases(host, rt, rest, conns, pass)
        }
        _ => run_npfctl(host, rt, words, conns, pass),
    }
}

fn run_npfctl<R: Threads + Wait + Sync, C: Connections<FlowLaw>>(
    host: &HostRuntime,
    rt: &R,
    words: &[String],
    conns: &C,
    pass: &mut C::Pass,
) -> Result<(), Error>
    requires out { IsOut flow_law (C.fits conns.now) C.view pass.old }
    requires sole { (C.view pass.old).places ≡ all_places }
    requires new { (C.view pass.old).history ≡ [] }
{
    let mut files = FolderFiles::new(host);
    let mut out = StdoutSink::new(host);
    let mut err = StderrSink::new(host);
    let status = npfctl_top(
        rt,
        host.alloc(),
        words,
        &mut files,
        &mut out,
        &mut err,
        conns,
        pass,
        &NoGate,
    );
    match status {
        0 => Ok(()),
        _ => Err(anyhow!("npfctl ends with {status}")),
    }
}
