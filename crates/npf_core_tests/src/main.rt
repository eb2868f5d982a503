// The machines of connections, row by row: segments of TCP (npf_tcp), flows (npf_flow), histories of connections (npf_core), the
// connections that a run keeps (npf_oneturn_store) and the keys of packets (npf_key).
//
// Standard input has a row a line, as its head comment says, and each row is printed with its answer. What stdout wants comes from
// RFC 9293, from docs/FORMATS.md and by hand from sums and bounds, and not from this program.
#![tactic(auto)]

mod datagrams;
mod flows;
mod histories;
mod keys;
mod laws;
mod replies;
mod segments;
mod stores;
mod sum;
mod words;

use anyhow::{Context, Result, anyhow};
use datagrams::Talk;
use flows::{bare_packet, opened_flow};
use npf_flow::{Flow, FlowSettings};
use npf_oneturn_store::Store;
use npf_tcp::{TcpPhase, TcpState};
use segments::nothing_seen;
use std::alloc::Global;
use std::io::{BufRead, BufReader};

/// What the rows so far have made: a connection of TCP, a flow, and a store of connections.
#[derive(Drop)]
struct Machines {
    connection: TcpState,
    flow: Flow,
    store: Store<Talk>,
}

fn main(rt: HostRuntime) -> Result<()> {
    laws::call_all();
    let alloc = rt.alloc();
    let mut machines = Machines {
        connection: nothing_seen(TcpPhase::Closed),
        flow: opened_flow(bare_packet(0), FlowSettings::DEFAULT),
        store: Store::new(alloc, 0)?,
    };
    for (index, line) in BufReader::new(alloc, rt.reader())?.lines(alloc).enumerate() {
        answer_line(&rt, &mut machines, &line?).context(format_args!("line {}", index + 1))?;
    }
    Ok(())
}

/// Prints the answer to a line, if it has a row.
fn answer_line(rt: &(impl Print + AllocGlobal), machines: &mut Machines, line: &str) -> Result<()> {
    let row = without_comment(line);
    if row.is_empty() {
        return Ok(());
    }
    println!(rt; "{row} -> {}", answer(rt.alloc(), machines, row)?)?;
    Ok(())
}

/// The line up to its comment, which `#` starts.
fn without_comment(line: &str) -> &str {
    match line.split_once('#') {
        Some((row, _)) => row.trim(),
        None => line.trim(),
    }
}

fn answer(alloc: Global, machines: &mut Machines, row: &str) -> Result<String> {
    let (subject, rest) = row.split_once(' ').context("a row has a subject")?;
    let words: Vec<&str> = rest.split_whitespace().collect(alloc)?;
    match subject {
        "segment" => segments::answer(alloc, &mut machines.connection, &words),
        "flow" => flows::answer(alloc, &mut machines.flow, &words),
        "history" => histories::answer(alloc, rest),
        "store" => stores::answer(alloc, &mut machines.store, &words),
        "key" => keys::answer(alloc, &words),
        _ => Err(anyhow!("no such subject")),
    }
}
