// A run of npfctl over files in memory, and over each kind of table.
ghost use Rattle.std.specs.Prelude.{◌≡◌, []};
ghost use Rattle.npf_connections.specs.Pass.{all_places};
ghost use Rattle.npf_connections.specs.Stay.{IsOut};
ghost use Rattle.npf_flow.specs.Flows.{flow_law};

use crate::gate::Around;
use crate::setting::{NOTHING, Setting};
use anyhow::{Result, anyhow, bail};
use npf_conndb::{Conns, Fnv};
use npf_connections::Connections;
use npf_connections_fixtures::{NewTable, OneHash};
use npf_ctl::npfctl_top;
use npf_fixtures::texts::{put_lines, words_in};
use npf_flow::FlowLaw;
use npf_oneturn::OneTurn;
use npf_outside::{Files, MemFiles, MemSink};
use npf_types::NoMemory;
use std::alloc::Global;
use std::fmt::Write;
use std::sync::Wait;
use std::thread::Threads;

/// What a call answered, what was put on both sinks, and what it left.
#[derive(Drop)]
struct Answer {
    status: u8,
    out: MemSink,
    err: MemSink,
    files: MemFiles,
    gate: Around,
}

/// Prints what the top call answers to these words over the files: its status, and what is put on
/// both sinks. Where it wrote the file `o`, that has the bytes of the file `w`, and where it wrote
/// `p`, of `v`. The kinds of tables have to answer alike; but where the setting names nodes, the
/// run is over a table without locks that has so many, and one hash for all keys.
pub fn run<R: Print + AllocGlobal + Threads + Wait + Sync>(
    rt: &R,
    setting: &mut Setting,
    text: &str,
) -> Result<()> {
    let told = tell_run(rt, setting, text)?;
    setting.failing = NOTHING;
    setting.gate = false;
    setting.in_turn = false;
    print!(rt; "{told}")?;
    Ok(())
}

/// What `run` prints.
pub fn tell_run<R: AllocGlobal + Threads + Wait + Sync>(
    rt: &R,
    setting: &Setting,
    text: &str,
) -> Result<String> {
    match setting.nodes {
        Some(nodes) => tell_few_nodes(rt, setting, text, nodes),
        None => tell_alike(rt, setting, text),
    }
}

fn tell_few_nodes<R: AllocGlobal + Threads + Wait + Sync>(
    rt: &R,
    setting: &Setting,
    text: &str,
    nodes: u32,
) -> Result<String> {
    let slots = setting.slots;
    if !(1..=65_536).contains(&slots) || !(16..=262_144).contains(&nodes) {
        bail!("no table has so many slots and nodes");
    }
    let (conns, pass) = Conns::<FlowLaw, OneHash>::new(rt.alloc(), slots, nodes)?;
    tell(rt, setting, text, &conns, pass)
}

fn tell_alike<R: AllocGlobal + Threads + Wait + Sync>(
    rt: &R,
    setting: &Setting,
    text: &str,
) -> Result<String> {
    let told = tell_new::<R, Conns<FlowLaw, Fnv>>(rt, setting, text)?;
    let under_one_turn = tell_new::<R, OneTurn<FlowLaw>>(rt, setting, text)?;
    if told != under_one_turn {
        bail!("under one turn it is otherwise: {under_one_turn}");
    }
    Ok(told)
}

// What is told of a run over a new table.
fn tell_new<R: AllocGlobal + Threads + Wait + Sync, C: NewTable<FlowLaw>>(
    rt: &R,
    setting: &Setting,
    text: &str,
) -> Result<String> {
    let slots = setting.slots;
    if !(1..=65_536).contains(&slots) {
        bail!("no table has so many slots");
    }
    let (conns, pass) = C::new_table(rt.alloc(), slots)?;
    tell(rt, setting, text, &conns, pass)
}

// What is told of a run over this table.
fn tell<R: AllocGlobal + Threads + Wait + Sync, C: Connections<FlowLaw>>(
    rt: &R,
    setting: &Setting,
    text: &str,
    conns: &C,
    pass: C::Pass,
) -> Result<String>
    requires out { IsOut flow_law (C.fits conns.now) C.view pass }
    requires places { (C.view pass).places ≡ all_places }
    requires first { (C.view pass).history ≡ [] }
{
    let answer = call(rt, setting, text, conns, pass)?;
    let mut told = String::new(rt.alloc());
    write!(told, " -> {}\n", answer.status)?;
    put_lines(&mut told, "", answer.out.bytes())?;
    put_lines(&mut told, "! ", answer.err.bytes())?;
    if setting.gate {
        let (begun, ended) = answer.gate.counts();
        write!(told, "gate: {begun} began, {ended} ended\n")?;
    }
    let mut files = answer.files;
    put_written(&mut told, setting, &mut files, "o", "w")?;
    put_written(&mut told, setting, &mut files, "p", "v")?;
    Ok(told)
}

fn call<R: AllocGlobal + Threads + Wait + Sync, C: Connections<FlowLaw>>(
    rt: &R,
    setting: &Setting,
    text: &str,
    conns: &C,
    pass: C::Pass,
) -> Result<Answer>
    requires out { IsOut flow_law (C.fits conns.now) C.view pass }
    requires places { (C.view pass).places ≡ all_places }
    requires first { (C.view pass).history ≡ [] }
{
    let alloc = rt.alloc();
    let words = words_in(alloc, text)?;
    let mut pass = pass;
    let mut files = setting.folder.files()?;
    files.fail(setting.failing.file)?;
    let mut out = sink(alloc, setting.failing.out)?;
    let mut err = sink(alloc, setting.failing.err)?;
    let gate = Around::new(setting.in_turn);
    let status = npfctl_top(
        rt,
        alloc,
        words.as_slice(),
        &mut files,
        &mut out,
        &mut err,
        conns,
        &mut pass,
        &gate,
    );
    Ok(Answer {
        status,
        out,
        err,
        files,
        gate,
    })
}

fn sink(alloc: Global, failing: u64) -> Result<MemSink, NoMemory> {
    let mut sink = MemSink::new(alloc)?;
    sink.fail(failing)?;
    Ok(sink)
}

fn put_written(
    told: &mut String,
    setting: &Setting,
    files: &mut MemFiles,
    name: &str,
    wanted: &str,
) -> Result<()> {
    let Ok(written) = files.read(setting.alloc, name, u64::MAX) else {
        return Ok(());
    };
    if written.as_slice() != setting.folder.bytes(wanted)? {
        return Err(anyhow!("{name} has other bytes than {wanted}"));
    }
    write!(told, "{name} is as {wanted}\n")?;
    Ok(())
}
