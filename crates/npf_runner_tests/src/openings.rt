// Packets that open connections: what they become, and what later looks find.
ghost use Rattle.std.specs.Prelude.{◌≡◌, ◌≤◌, false};
ghost use Rattle.npf_connections.specs.Stay.{IsOut};
ghost use Rattle.npf_flow.specs.Flows.{flow_law};

use crate::answers::{put, same};
use npf_conndb::{Conns, Fnv};
use npf_connections::Connections;
use npf_connections_fixtures::{NewTable, OneHash};
use npf_core::Found;
use npf_engine_opening::{Attempt, Opened, Refusal, open};
use npf_flow::{FlowArg, FlowLaw, FlowSettings};
use npf_nat::MapPlan;
use npf_oneturn::OneTurn;
use npf_types::{Action, Addr, Change, End, Facts, IfId, Key, L4};
use std::alloc::Global;
use std::sync::Wait;
use std::test::Fail;

/// 10.0.0.7 and 10.0.0.8, which are inside, 198.51.100.9, a server, and 203.0.113.1, a gateway's outer address.
const INSIDE: Addr = Addr::V4(0x0a00_0007);

const NEIGHBOUR: Addr = Addr::V4(0x0a00_0008);

const SERVER: Addr = Addr::V4(0xc633_6409);

const GATEWAY: Addr = Addr::V4(0xcb00_7101);

/// The keys, on the interface 1, of UDP from 10.0.0.7, port 5000, and from 10.0.0.8, port 5000, to 198.51.100.9, port 53.
const FROM_INSIDE: Key = Key([0x0411_0001_1388_0035, 0, 0x0a00_0007, 0, 0xc633_6409]);

const FROM_NEIGHBOUR: Key = Key([0x0411_0001_1388_0035, 0, 0x0a00_0008, 0, 0xc633_6409]);

/// The keys of the answers to 10.0.0.7, and to 203.0.113.1, ports 5000 and 61001.
const TO_INSIDE: Key = Key([0x0411_0001_0035_1388, 0, 0xc633_6409, 0, 0x0a00_0007]);

const TO_GATEWAY: Key = Key([0x0411_0001_0035_1388, 0, 0xc633_6409, 0, 0xcb00_7101]);

const TO_61001: Key = Key([0x0411_0001_0035_ee49, 0, 0xc633_6409, 0, 0xcb00_7101]);

/// The keys of the ports 61000 and 61001 of 203.0.113.1.
const PORT_61000: Key = Key([0x8400_0000_0000_ee48, 0, 0xcb00_7101, 0, 0]);

const PORT_61001: Key = Key([0x8400_0000_0000_ee49, 0, 0xcb00_7101, 0, 0]);

/// The key of an echo of the identifier 7 from 10.0.0.7 to itself.
const TO_ITSELF: Key = Key([0x0401_0001_0007_0007, 0, 0x0a00_0007, 0, 0x0a00_0007]);

const NO_ACTION: Action = Action {
    min_ttl: None,
    max_mss: None,
    no_df: false,
    log: None,
};

const UNCHANGED: Change = Change {
    src: None,
    dst: None,
    neutral: false,
};

/// What a rule without a map makes of a packet, and a map of one address that draws no port.
const UNMAPPED: MapPlan = MapPlan::Fixed {
    there: UNCHANGED,
    back: UNCHANGED,
};

const STATIC: MapPlan = MapPlan::Fixed {
    there: Change {
        src: Some(End {
            addr: GATEWAY,
            port: None,
        }),
        dst: None,
        neutral: false,
    },
    back: UNCHANGED,
};

/// What maps draw that have the gateway's ports 61000 and 61001, and 61000 alone.
const TWO_PORTS: MapPlan = MapPlan::Draw {
    addr: GATEWAY,
    min: 61000,
    max: 61001,
    first: 61000,
};

const ONE_PORT: MapPlan = MapPlan::Draw {
    addr: GATEWAY,
    min: 61000,
    max: 61000,
    first: 61000,
};

#[derive(Clone, Copy)]
enum Act {
    /// UDP from an address to the server's port 53, both of the port 5000 and under this plan.
    Ask(Addr, MapPlan),
    /// The server's answer to 10.0.0.7.
    Answer,
    /// The request of an echo of the identifier 7 from 10.0.0.7 to itself.
    Echo,
    /// So many packets of UDP, each of a port of its own: what the last one becomes.
    Fill(u16),
    /// Who holds the key.
    Holder(Key),
}

const CASES: [&[Act]; 8] = [
    // again
    &[
        Act::Ask(INSIDE, UNMAPPED),
        Act::Ask(INSIDE, UNMAPPED),
        Act::Holder(FROM_INSIDE),
        Act::Holder(TO_INSIDE),
        Act::Holder(PORT_61000),
    ],
    // an answer
    &[
        Act::Ask(INSIDE, UNMAPPED),
        Act::Answer,
        Act::Holder(FROM_INSIDE),
        Act::Holder(TO_INSIDE),
        Act::Holder(PORT_61000),
    ],
    // an echo to itself
    &[
        Act::Echo,
        Act::Echo,
        Act::Holder(TO_ITSELF),
        Act::Holder(FROM_INSIDE),
        Act::Holder(TO_INSIDE),
    ],
    // the next port
    &[
        Act::Ask(INSIDE, TWO_PORTS),
        Act::Ask(NEIGHBOUR, TWO_PORTS),
        Act::Holder(PORT_61000),
        Act::Holder(PORT_61001),
        Act::Holder(TO_61001),
    ],
    // the only port
    &[
        Act::Ask(INSIDE, ONE_PORT),
        Act::Ask(NEIGHBOUR, ONE_PORT),
        Act::Holder(PORT_61000),
        Act::Holder(PORT_61001),
        Act::Holder(FROM_NEIGHBOUR),
    ],
    // the other's answers
    &[
        Act::Ask(INSIDE, STATIC),
        Act::Ask(NEIGHBOUR, STATIC),
        Act::Holder(FROM_INSIDE),
        Act::Holder(TO_GATEWAY),
        Act::Holder(FROM_NEIGHBOUR),
    ],
    // a full table
    &[Act::Fill(64)],
    &[Act::Fill(65)],
];

const ANSWERS: &str =
    "Open { id: ConnId { slot: 0, inc: 1 }, there: Change { src: None, dst: None, neutral: false } }
Known { holder: Found { id: ConnId { slot: 0, inc: 1 }, way: Forward }, answer: Done { reply: FlowReply { pass: true, opener: 1, \
change: Change { src: None, dst: None, neutral: false }, action: Action { min_ttl: None, max_mss: None, no_df: false, log: None } }, \
place: 1 } }
Some(Found { id: ConnId { slot: 0, inc: 1 }, way: Forward })
Some(Found { id: ConnId { slot: 0, inc: 1 }, way: Backward })
None

Open { id: ConnId { slot: 0, inc: 1 }, there: Change { src: None, dst: None, neutral: false } }
Known { holder: Found { id: ConnId { slot: 0, inc: 1 }, way: Backward }, answer: Done { reply: FlowReply { pass: true, opener: 1, \
change: Change { src: None, dst: None, neutral: false }, action: Action { min_ttl: None, max_mss: None, no_df: false, log: None } }, \
place: 1 } }
Some(Found { id: ConnId { slot: 0, inc: 1 }, way: Forward })
Some(Found { id: ConnId { slot: 0, inc: 1 }, way: Backward })
None

Open { id: ConnId { slot: 0, inc: 1 }, there: Change { src: None, dst: None, neutral: false } }
Known { holder: Found { id: ConnId { slot: 0, inc: 1 }, way: Forward }, answer: Done { reply: FlowReply { pass: true, opener: 1, \
change: Change { src: None, dst: None, neutral: false }, action: Action { min_ttl: None, max_mss: None, no_df: false, log: None } }, \
place: 1 } }
Some(Found { id: ConnId { slot: 0, inc: 1 }, way: Forward })
None
None

Open { id: ConnId { slot: 0, inc: 1 }, there: Change { src: Some(End { addr: V4(3405803777), port: Some(61000) }), dst: None, \
neutral: false } }
Open { id: ConnId { slot: 1, inc: 1 }, there: Change { src: Some(End { addr: V4(3405803777), port: Some(61001) }), dst: None, \
neutral: false } }
Some(Found { id: ConnId { slot: 0, inc: 1 }, way: Port })
Some(Found { id: ConnId { slot: 1, inc: 1 }, way: Port })
Some(Found { id: ConnId { slot: 1, inc: 1 }, way: Backward })

Open { id: ConnId { slot: 0, inc: 1 }, there: Change { src: Some(End { addr: V4(3405803777), port: Some(61000) }), dst: None, \
neutral: false } }
Refused(NoPort)
Some(Found { id: ConnId { slot: 0, inc: 1 }, way: Port })
None
None

Open { id: ConnId { slot: 0, inc: 1 }, there: Change { src: Some(End { addr: V4(3405803777), port: None }), dst: None, neutral: false } }
Refused(Taken(Found { id: ConnId { slot: 0, inc: 1 }, way: Backward }))
Some(Found { id: ConnId { slot: 0, inc: 1 }, way: Forward })
Some(Found { id: ConnId { slot: 0, inc: 1 }, way: Backward })
None

Open { id: ConnId { slot: 63, inc: 1 }, there: Change { src: None, dst: None, neutral: false } }

Refused(Full)

";

fn facts(src: Addr, dst: Addr, proto: u8, l4: L4) -> Facts {
    Facts {
        src,
        dst,
        proto,
        ip_at: 0,
        l4_at: 20,
        end: 28,
        l4,
    }
}

fn udp(src: Addr, sport: u16, dst: Addr, dport: u16) -> Facts {
    facts(src, dst, 17, L4::Udp { sport, dport })
}

fn echo(src: Addr, dst: Addr) -> Facts {
    let l4 = L4::Icmp {
        kind: 8,
        code: 0,
        echo: Some(7),
    };
    facts(src, dst, 1, l4)
}

// A packet that would open a connection of the interface 1.
fn attempt(packet: u64, facts: Facts, plan: MapPlan) -> Attempt {
    Attempt {
        packet,
        facts,
        ifid: IfId(1),
        arg: FlowArg {
            now: packet,
            seg: None,
            peek: false,
        },
        settings: FlowSettings::DEFAULT,
        action: NO_ACTION,
        plan,
    }
}

// What the packet becomes, in a stay of its own.
fn try_once<C: Connections<FlowLaw>>(
    rt: &impl Wait,
    conns: &C,
    pass: &mut C::Pass,
    attempt: &Attempt,
) -> Opened
    requires out { IsOut flow_law (C.fits conns.now) C.view pass.old }
    requires place { 1 ≤ (C.view pass.old).places }
    ensures out { IsOut flow_law (C.fits conns.now) C.view pass.new }
    ensures places { (C.view pass.new).places ≡ (C.view pass.old).places }
{
    conns.enter(rt, pass);
    let opened = open(rt, conns, pass, attempt);
    conns.leave(rt, pass);
    opened
}

fn holder<C: Connections<FlowLaw>>(
    rt: &impl Wait,
    conns: &C,
    pass: &mut C::Pass,
    key: Key,
) -> Option<Found>
    requires out { IsOut flow_law (C.fits conns.now) C.view pass.old }
    requires place { 1 ≤ (C.view pass.old).places }
    ensures out { IsOut flow_law (C.fits conns.now) C.view pass.new }
    ensures places { (C.view pass.new).places ≡ (C.view pass.old).places }
{
    conns.enter(rt, pass);
    let found = conns.look(rt, pass, 9, key);
    conns.leave(rt, pass);
    found
}

// What the last of so many packets becomes, each of a port of its own.
fn last_of<C: Connections<FlowLaw>>(
    rt: &impl Wait,
    conns: &C,
    pass: &mut C::Pass,
    packets: u16,
) -> Opened
    requires out { IsOut flow_law (C.fits conns.now) C.view pass.old }
    requires place { 1 ≤ (C.view pass.old).places }
    ensures out { IsOut flow_law (C.fits conns.now) C.view pass.new }
    ensures places { (C.view pass.new).places ≡ (C.view pass.old).places }
{
    let mut last = Opened::Refused(Refusal::NoPort);
    for port in 0..packets {
        let packet = attempt(u64::from(port), udp(INSIDE, port, SERVER, 53), UNMAPPED);
        last = try_once(rt, conns, pass, &packet);
    }
    last
}

// Does the act with this number, from 1, and tells its answer.
fn answer<C: Connections<FlowLaw>>(
    rt: &impl Wait,
    conns: &C,
    pass: &mut C::Pass,
    n: u64,
    act: Act,
    told: &mut String,
) -> Result<(), Fail>
    requires out { IsOut flow_law (C.fits conns.now) C.view pass.old }
    requires place { 1 ≤ (C.view pass.old).places }
    ensures out { IsOut flow_law (C.fits conns.now) C.view pass.new }
    ensures places { (C.view pass.new).places ≡ (C.view pass.old).places }
{
    let packet = match act {
        Act::Holder(key) => return put(told, &holder(rt, conns, pass, key)),
        Act::Fill(packets) => return put(told, &last_of(rt, conns, pass, packets)),
        Act::Ask(src, plan) => attempt(n, udp(src, 5000, SERVER, 53), plan),
        Act::Answer => attempt(n, udp(SERVER, 53, INSIDE, 5000), UNMAPPED),
        Act::Echo => attempt(n, echo(INSIDE, INSIDE), UNMAPPED),
    };
    put(told, &try_once(rt, conns, pass, &packet))
}

fn answer_all<C: Connections<FlowLaw>>(
    rt: &impl Wait,
    conns: &C,
    pass: &mut C::Pass,
    acts: &[Act],
    told: &mut String,
) -> Result<(), Fail>
    requires out { IsOut flow_law (C.fits conns.now) C.view pass.old }
    requires place { 1 ≤ (C.view pass.old).places }
{
    for (before, act) in acts.iter().enumerate() {
        answer(rt, conns, pass, before as u64 + 1, *act, told)?;
    }
    Ok(())
}

fn new_table_answers<C: NewTable<FlowLaw>>(
    rt: &impl Wait,
    alloc: Global,
    acts: &[Act],
    told: &mut String,
) -> Result<(), Fail> {
    let (conns, mut pass) = C::new_table(alloc, 64)?;
    answer_all(rt, &conns, &mut pass, acts, told)
}

// What new tables of this kind answer.
fn answers<C: NewTable<FlowLaw>>(rt: &impl Wait, alloc: Global) -> Result<String, Fail> {
    let mut told = String::new(alloc);
    for acts in &CASES {
        new_table_answers::<C>(rt, alloc, acts, &mut told)?;
        told.push('\n')?;
    }
    Ok(told)
}

#[test]
fn packets_open_connections_or_are_known(rt: HostRuntime) -> Result<(), Fail> {
    let alloc = rt.alloc();
    for told in &[
        answers::<OneTurn<FlowLaw>>(&rt, alloc)?,
        answers::<Conns<FlowLaw, Fnv>>(&rt, alloc)?,
        answers::<Conns<FlowLaw, OneHash>>(&rt, alloc)?,
    ] {
        same(&rt, told.as_str(), ANSWERS);
    }
    Ok(())
}
