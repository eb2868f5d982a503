// How long a packet's look and step take of connections in a table of each kind.
ghost use Rattle.std.specs.Prelude.{◌≡◌, ◌≤◌, false, []};
ghost use Rattle.npf_flow.specs.Flows.{flow_law};
ghost use Rattle.npf_connections.specs.Stay.{IsIn, IsOut};

use crate::drawn::{Draws, KEYS, key};
use crate::flows::{PACKET, flow};
use anyhow::Error;
use npf_conndb::{Conns, Fnv};
use npf_connections::Connections;
use npf_core::{Held, Stepped};
use npf_fixtures::work::{Work, or_few};
use npf_flow::FlowLaw;
use npf_oneturn::OneTurn;
use npf_types::{Key, Way};
use std::sync::Wait;
use std::time::Instant;

/// How many nodes the table without locks may have.
const NODES: u32 = 65_536;

/// What packets each in a stay of its own are called, and packets in stays of a hundred.
#[derive(Clone, Copy)]
struct Names {
    apart: &'static str,
    together: &'static str,
}

const WITHOUT_LOCKS: Names = Names {
    apart: "connections without locks, a stay for a packet",
    together: "connections without locks, a stay for a hundred",
};

const UNDER_ONE_TURN: Names = Names {
    apart: "connections under one turn, a stay for a packet",
    together: "connections under one turn, a stay for a hundred",
};

/// So many packets over a table of each kind, each in a stay of its own, and again in stays of a
/// hundred. The host has the clock and the output.
pub fn time_tables(host: &HostRuntime, rt: &impl Wait, packets: u64) -> Result<(), Error> {
    let (conns, mut pass) = Conns::<FlowLaw, Fnv>::new(host.alloc(), KEYS, NODES)?;
    time_table(host, rt, &conns, &mut pass, WITHOUT_LOCKS, packets)?;
    let (conns, mut pass) = OneTurn::<FlowLaw>::new(host.alloc(), KEYS)?;
    time_table(host, rt, &conns, &mut pass, UNDER_ONE_TURN, packets)
}

fn time_table<C: Connections<FlowLaw>>(
    host: &HostRuntime,
    rt: &impl Wait,
    conns: &C,
    pass: &mut C::Pass,
    names: Names,
    packets: u64,
) -> Result<(), Error>
    requires out { IsOut flow_law (C.fits conns.now) C.view pass.old }
    requires place { 1 ≤ (C.view pass.old).places }
{
    let opened = fill(rt, conns, pass);
    let apart = Work {
        size: opened.into(),
        name: names.apart,
        pieces: packets,
    };
    let together = Work {
        size: opened.into(),
        name: names.together,
        pieces: packets / 100 * 100,
    };
    let stays = or_few(packets, KEYS.into());
    let start = Instant::now(host)?;
    let passed = run(rt, conns, pass, stays, 1);
    apart.say(host, start, passed)?;
    let start = Instant::now(host)?;
    let passed = run(rt, conns, pass, stays / 100, 100);
    together.say(host, start, passed)
}

// Opens the connections, and answers how many were opened before one was refused.
fn fill<C: Connections<FlowLaw>>(rt: &impl Wait, conns: &C, pass: &mut C::Pass) -> u32
    requires out { IsOut flow_law (C.fits conns.now) C.view pass.old }
    requires place { 1 ≤ (C.view pass.old).places }
    ensures out { IsOut flow_law (C.fits conns.now) C.view pass.new }
    ensures places { (C.view pass.new).places ≡ (C.view pass.old).places }
{
    for number in 0..KEYS {
        if !open(rt, conns, pass, number) {
            return number;
        }
    }
    KEYS
}

// Opens a connection in a stay of its own, unless it is refused.
fn open<C: Connections<FlowLaw>>(rt: &impl Wait, conns: &C, pass: &mut C::Pass, number: u32) -> bool
    requires out { IsOut flow_law (C.fits conns.now) C.view pass.old }
    requires place { 1 ≤ (C.view pass.old).places }
    ensures out { IsOut flow_law (C.fits conns.now) C.view pass.new }
    ensures places { (C.view pass.new).places ≡ (C.view pass.old).places }
{
    conns.enter(rt, pass);
    let opened = keep(rt, conns, pass, number);
    conns.leave(rt, pass);
    opened
}

// Opens a connection in a stay, unless it is refused.
fn keep<C: Connections<FlowLaw>>(rt: &impl Wait, conns: &C, pass: &mut C::Pass, number: u32) -> bool
    requires inside { IsIn flow_law (C.fits conns.now) C.view pass.old }
    requires idle { (C.view pass.old).builds ≡ [] }
    ensures inside { IsIn flow_law (C.fits conns.now) C.view pass.new }
    ensures idle { (C.view pass.new).builds ≡ [] }
    ensures places { (C.view pass.new).places ≡ (C.view pass.old).places }
{
    let n = u64::from(number);
    let Some(id) = conns.begin(rt, pass, n) else {
        return false;
    };
    let held = conns.hold(rt, pass, id, key(number), Way::Forward) == Held::Done;
    if held {
        conns.start(rt, pass, id, n, flow(number));
    } else {
        conns.abandon(rt, pass, id);
    }
    held
}

// Steps a connection for each packet, in so many stays of so many packets, and answers how many packets pass.
fn run<C: Connections<FlowLaw>>(
    rt: &impl Wait,
    conns: &C,
    pass: &mut C::Pass,
    stays: u64,
    packets: u64,
) -> u64
    requires out { IsOut flow_law (C.fits conns.now) C.view pass.old }
    requires place { 1 ≤ (C.view pass.old).places }
    ensures out { IsOut flow_law (C.fits conns.now) C.view pass.new }
    ensures places { (C.view pass.new).places ≡ (C.view pass.old).places }
{
    let mut draws = Draws::new(0);
    let mut passed = 0u64;
    for _ in 0..stays {
        conns.enter(rt, pass);
        passed = passed.wrapping_add(step_some(rt, conns, pass, &mut draws, packets));
        conns.leave(rt, pass);
    }
    passed
}

// Steps a connection for each packet in one stay.
fn step_some<C: Connections<FlowLaw>>(
    rt: &impl Wait,
    conns: &C,
    pass: &mut C::Pass,
    draws: &mut Draws,
    packets: u64,
) -> u64
    requires inside { IsIn flow_law (C.fits conns.now) C.view pass.old }
    requires idle { (C.view pass.old).builds ≡ [] }
    ensures inside { IsIn flow_law (C.fits conns.now) C.view pass.new }
    ensures idle { (C.view pass.new).builds ≡ [] }
    ensures places { (C.view pass.new).places ≡ (C.view pass.old).places }
{
    let mut passed = 0u64;
    for n in 0..packets {
        if step(rt, conns, pass, draws.key(), n) {
            passed = passed.wrapping_add(1);
        }
    }
    passed
}

// Steps the connection by a packet, and answers whether the packet passes.
fn step<C: Connections<FlowLaw>>(
    rt: &impl Wait,
    conns: &C,
    pass: &mut C::Pass,
    key: Key,
    n: u64,
) -> bool
    requires inside { IsIn flow_law (C.fits conns.now) C.view pass.old }
    requires idle { (C.view pass.old).builds ≡ [] }
    ensures inside { IsIn flow_law (C.fits conns.now) C.view pass.new }
    ensures idle { (C.view pass.new).builds ≡ [] }
    ensures places { (C.view pass.new).places ≡ (C.view pass.old).places }
{
    let Some(found) = conns.look(rt, pass, n, key) else {
        return false;
    };
    match conns.step(rt, pass, found.id, n, found.way, &PACKET) {
        Stepped::Done { reply, .. } => reply.pass,
        Stepped::NotLive => false,
    }
}
