// Workers are on threads of their own, and meet in one table.
use crate::answers::{put, same};
use crate::expiry::Expiry;
use crate::freeing::Freeing;
use crate::gates::{HoldUntil, Notes};
use crate::meeting::Meeting;
use crate::packets::{datagrams, datagrams_of, syns};
use crate::run::{Published, SLOTS, expiring, publishing, run, under};
use crate::watched::Watched;
use npf_conndb::{Conns, Fnv};
use npf_connections_fixtures::NewTable;
use npf_engine::{Outcome, Refusal};
use npf_flow::FlowLaw;
use npf_oneturn::OneTurn;
use npf_runner::{NoGate, Packet};
use std::alloc::Global;
use std::sync::Wait;
use std::test::Fail;
use std::thread::Threads;

/// How often the table without locks is put to the tests.
const RUNS: u32 = 10;

const STATELESS: &str = "group default { pass all }\n";

const STATEFUL: &str = "group default { pass stateful all }\n";

// The outcomes of two packets, of which the gate holds one until the other's is known.
fn run_held<R: Threads + Wait + Sync, C: NewTable<FlowLaw>>(
    rt: &R,
    alloc: Global,
    text: &str,
    packets: Vec<Packet<'_>>,
    gate: &HoldUntil,
) -> Result<Vec<Outcome>, Fail> {
    let (conns, mut pass) = C::new_table(alloc, SLOTS)?;
    let case = under(alloc, text, packets)?;
    run(rt, alloc, case, &conns, &mut pass, gate)
}

// The outcomes of two packets whose first looks wait for each other's. Tells whether they met.
fn run_meeting<R: Threads + Wait + Sync, C: NewTable<FlowLaw>>(
    rt: &R,
    alloc: Global,
    packets: Vec<Packet<'_>>,
    told: &mut String,
) -> Result<Vec<Outcome>, Fail> {
    let (table, mut pass) = C::new_table(alloc, SLOTS)?;
    let conns = Watched::new(table, Meeting::new());
    let case = under(alloc, STATEFUL, packets)?;
    let outcomes = run(rt, alloc, case, &conns, &mut pass, &NoGate)?;
    put(told, &conns.watch.met())?;
    Ok(outcomes)
}

fn tell_passed(told: &mut String, outcomes: &[Outcome]) -> Result<(), Fail> {
    for outcome in outcomes {
        put(told, &outcome.passes())?;
    }
    Ok(())
}

// Whether the one packet opened a connection, and the other is its first step, or found that it had
// begun and wasn't live yet.
fn is_one_flow(one: &Outcome, other: &Outcome) -> bool {
    let Outcome::ByRule {
        opened: Some(opened),
        ..
    } = one
    else {
        return false;
    };
    match other {
        Outcome::ByConn {
            id,
            place: 1,
            pass: true,
            ..
        } => id == opened,
        Outcome::Unkept {
            why: Refusal::Taken(holder),
            ..
        } => holder.id == *opened,
        _ => false,
    }
}

fn tell_one_flow(told: &mut String, outcomes: &[Outcome]) -> Result<(), Fail> {
    let [one, other] = outcomes else {
        return Err("two packets have two outcomes".into());
    };
    put(told, &(is_one_flow(one, other) || is_one_flow(other, one)))
}

// - Worker 0 is held before packet 1 until worker 1 has answered packet 2: on one thread the gate would give up.
// - Each packet's first look waits until the other's has begun: with a lock round each packet the wait would give up.
// - Packet 2 is held until packet 1 is answered. Both are one SYN: the first opens the connection, the second is its next step.
// - The first looks of both SYNs find nobody: one opens the connection all the same, and the other is told so.
fn tell_shared<R: Threads + Wait + Sync, C: NewTable<FlowLaw>>(
    rt: &R,
    alloc: Global,
) -> Result<String, Fail> {
    let mut told = String::new(alloc);
    let gate = HoldUntil::new(1, 2);
    let outcomes = run_held::<R, C>(rt, alloc, STATELESS, datagrams(alloc)?, &gate)?;
    tell_passed(&mut told, &outcomes)?;
    put(&mut told, &gate.gave_up())?;
    let outcomes = run_meeting::<R, C>(rt, alloc, datagrams(alloc)?, &mut told)?;
    tell_passed(&mut told, &outcomes)?;
    let gate = HoldUntil::new(2, 1);
    let outcomes = run_held::<R, C>(rt, alloc, STATEFUL, syns(alloc)?, &gate)?;
    put(&mut told, &gate.gave_up())?;
    put(&mut told, &outcomes.as_slice())?;
    let outcomes = run_meeting::<R, C>(rt, alloc, syns(alloc)?, &mut told)?;
    tell_one_flow(&mut told, &outcomes)?;
    Ok(told)
}

// What a gate is told of packets 1 and 2, which go to workers 0 and 1: each tells it before its
// packet and after it, once.
fn tell_gate<R: Threads + Wait + Sync, C: NewTable<FlowLaw>>(
    rt: &R,
    alloc: Global,
) -> Result<String, Fail> {
    let gate = Notes::new();
    let (conns, mut pass) = C::new_table(alloc, SLOTS)?;
    let case = under(alloc, STATELESS, datagrams(alloc)?)?;
    run(rt, alloc, case, &conns, &mut pass, &gate)?;
    let mut told = String::new(alloc);
    put(&mut told, &gate.noted())?;
    Ok(told)
}

// Tells what becomes of a packet that is handled when the expiry of its phase is about to begin.
fn tell_published<R: Threads + Wait + Sync, C: NewTable<FlowLaw>>(
    rt: &R,
    alloc: Global,
    published: Published,
    told: &mut String,
) -> Result<(), Fail> {
    let (table, mut pass) = C::new_table(alloc, SLOTS)?;
    let conns = Watched::new(table, Expiry::new());
    let case = publishing(alloc, published)?;
    let outcomes = run(rt, alloc, case, &conns, &mut pass, &conns.watch)?;
    put(told, &conns.watch.gave_up())?;
    put(told, &outcomes.as_slice())
}

// What is published in front of the expiry decides the packet, and what is published behind it
// doesn't.
fn tell_commands<R: Threads + Wait + Sync, C: NewTable<FlowLaw>>(
    rt: &R,
    alloc: Global,
) -> Result<String, Fail> {
    let mut told = String::new(alloc);
    tell_published::<R, C>(rt, alloc, Published::BeforeExpiry, &mut told)?;
    tell_published::<R, C>(rt, alloc, Published::BehindExpiry, &mut told)?;
    Ok(told)
}

// As many packets as there are slots open a connection each, an expiry kills these, and a packet that comes while the phase still runs opens
// one in a slot that came back.
fn tell_freed<R: Threads + Wait + Sync, C: NewTable<FlowLaw>>(
    rt: &R,
    alloc: Global,
) -> Result<String, Fail> {
    let (table, mut pass) = C::new_table(alloc, SLOTS)?;
    let conns = Watched::new(table, Freeing::new());
    let case = expiring(alloc, STATEFUL, datagrams_of(alloc, 5)?)?;
    let outcomes = run(rt, alloc, case, &conns, &mut pass, &conns.watch)?;
    let mut told = String::new(alloc);
    put(&mut told, &conns.watch.gave_up())?;
    for outcome in &outcomes {
        put(&mut told, &opens_one(outcome))?;
    }
    Ok(told)
}

// Whether the packet opened a connection.
fn opens_one(outcome: &Outcome) -> bool {
    matches!(
        outcome,
        Outcome::ByRule {
            opened: Some(_),
            ..
        }
    )
}

// All that is told of workers over tables of this kind.
fn tell_workers<R: Threads + Wait + Sync, C: NewTable<FlowLaw>>(
    rt: &R,
    alloc: Global,
) -> Result<String, Fail> {
    let mut told = tell_shared::<R, C>(rt, alloc)?;
    told.push_str(tell_gate::<R, C>(rt, alloc)?.as_str())?;
    told.push_str(tell_commands::<R, C>(rt, alloc)?.as_str())?;
    told.push_str(tell_freed::<R, C>(rt, alloc)?.as_str())?;
    Ok(told)
}

const TOLD: &str = "true
true
false
true
true
true
false
[ByRule { decision: Pass, log: None, rule: Some(0), config: 0, opened: Some(ConnId { slot: 0, inc: 1 }) }, \
ByConn { id: ConnId { slot: 0, inc: 1 }, opener: 1, place: 1, pass: true, log: None }]
true
true
(12, 34)
false
[ByRule { decision: Pass, log: None, rule: Some(0), config: 1, opened: None }]
false
[ByRule { decision: Block(Nothing), log: None, rule: Some(0), config: 0, opened: None }]
false
true
true
true
true
true
";

#[test]
fn workers_share_a_table_and_do_not_wait_for_each_other(rt: HostRuntime) -> Result<(), Fail> {
    let alloc = rt.alloc();
    same(
        &rt,
        tell_workers::<_, OneTurn<FlowLaw>>(&rt, alloc)?.as_str(),
        TOLD,
    );
    for _ in 0..RUNS {
        same(
            &rt,
            tell_workers::<_, Conns<FlowLaw, Fnv>>(&rt, alloc)?.as_str(),
            TOLD,
        );
    }
    Ok(())
}
