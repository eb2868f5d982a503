// Rows of flows: packets one after the other, through the law of flows as a table of connections asks it.

use crate::segments::{nothing_seen, parse_phase};
use crate::words::{parse_segment, parse_way};
use anyhow::{Context, Result, anyhow};
use npf_core::Law;
use npf_flow::{Flow, FlowArg, FlowKind, FlowLaw, FlowReply, FlowSettings, due, open_flow};
use npf_timeouts::{Timeout, Timeouts};
use npf_types::{Action, Addr, Change, End, Segment, Way};
use std::alloc::Global;

const SECOND: u64 = 1_000_000_000;

const UNCHANGED: Change = Change {
    src: None,
    dst: None,
    neutral: false,
};

/// The source becomes 203.0.113.1, port 1024.
const THERE: Change = Change {
    src: Some(End {
        addr: Addr::V4(0xcb00_7101),
        port: Some(1024),
    }),
    ..UNCHANGED
};

/// The destination becomes 10.0.0.1, port 5000.
const BACK: Change = Change {
    dst: Some(End {
        addr: Addr::V4(0x0a00_0001),
        port: Some(5000),
    }),
    ..UNCHANGED
};

const ACTION: Action = Action {
    min_ttl: Some(64),
    max_mss: None,
    no_df: true,
    log: None,
};

/// What a configuration says that asks for resets in order.
const STRICT: FlowSettings = FlowSettings {
    strict: true,
    ..FlowSettings::DEFAULT
};

/// The timeouts, as a row has them.
const TIMEOUTS: [Timeout; 7] = [
    Timeout::TcpNew,
    Timeout::TcpEstablished,
    Timeout::TcpHalfClose,
    Timeout::TcpTimeWait,
    Timeout::TcpClose,
    Timeout::OtherNew,
    Timeout::OtherEstablished,
];

pub fn answer(alloc: Global, flow: &mut Flow, words: &[&str]) -> Result<String> {
    match *words {
        ["open", "strict", ref packet @ ..] => {
            *flow = opened_flow(parse_arg(packet)?, STRICT);
            kind_text(alloc, flow)
        }
        ["open", ref packet @ ..] => {
            *flow = opened_flow(parse_arg(packet)?, FlowSettings::DEFAULT);
            kind_text(alloc, flow)
        }
        ["due", "under", seconds, kind, ref times @ ..] => {
            let settings = FlowSettings {
                timeouts: parse_timeouts(seconds)?,
                ..FlowSettings::DEFAULT
            };
            due_text(alloc, &flow_of(kind, settings)?, times)
        }
        ["due", kind, ref times @ ..] => {
            due_text(alloc, &flow_of(kind, FlowSettings::DEFAULT)?, times)
        }
        ["peek", way, ref packet @ ..] => {
            let arg = FlowArg {
                peek: true,
                ..parse_arg(packet)?
            };
            step_text(alloc, flow, parse_way(way)?, &arg)
        }
        [way, ref packet @ ..] => { step_text(alloc, flow, parse_way(way)?, &parse_arg(packet)?) }
        [] => Err(anyhow!("no row of a flow")),
    }
}

/// The flow that packet 7 opens by this.
pub fn opened_flow(arg: FlowArg, settings: FlowSettings) -> Flow {
    open_flow(arg, settings, 7, THERE, BACK, ACTION)
}

/// A flow of this kind, opened under these settings, whose last packet came at 100 s.
fn flow_of(kind: &str, settings: FlowSettings) -> Result<Flow> {
    Ok(Flow {
        kind: parse_kind(kind)?,
        ..opened_flow(bare_packet(100 * SECOND), settings)
    })
}

/// Seven numbers of seconds, parted by commas.
fn parse_timeouts(text: &str) -> Result<Timeouts> {
    let mut seconds = text.split(',');
    let mut times = Timeouts::DEFAULT;
    for timeout in &TIMEOUTS {
        times = times.with(
            *timeout,
            seconds.next().context("seven times")?.parse::<u32>()?,
        );
    }
    Ok(times)
}

/// What a packet without a segment brings at this time.
pub fn bare_packet(now: u64) -> FlowArg {
    FlowArg {
        now,
        seg: None,
        peek: false,
    }
}

/// What a packet brings, `SECONDS` and its segment, if it has one.
fn parse_arg(words: &[&str]) -> Result<FlowArg> {
    let [seconds, ref segment @ ..] = *words else {
        return Err(anyhow!("a packet of a flow is SECONDS and maybe SEGMENT"));
    };
    Ok(FlowArg {
        seg: parse_packet(segment)?,
        ..bare_packet(parse_seconds(seconds)?)
    })
}

fn parse_seconds(word: &str) -> Result<u64> {
    Ok(word.parse::<u64>()?.saturating_mul(SECOND))
}

/// What a packet of TCP has for a segment, or no words.
fn parse_packet(words: &[&str]) -> Result<Option<Segment>> {
    if words.is_empty() {
        return Ok(None);
    }
    Ok(Some(parse_segment(words)?))
}

/// A phase of TCP, where nothing is known of the sides, or whether a flow of another protocol was answered.
fn parse_kind(word: &str) -> Result<FlowKind> {
    match word {
        "unanswered" => Ok(FlowKind::Other { answered: false }),
        "answered" => Ok(FlowKind::Other { answered: true }),
        phase => Ok(FlowKind::Tcp(nothing_seen(parse_phase(phase)?))),
    }
}

fn kind_text(alloc: Global, flow: &Flow) -> Result<String> {
    match flow.kind {
        FlowKind::Tcp(state) => Ok(format!(in alloc; "{:?}", state.phase)?),
        FlowKind::Other { answered: false } => Ok(format!(in alloc; "unanswered")?),
        FlowKind::Other { answered: true } => Ok(format!(in alloc; "answered")?),
    }
}

// The law as a table of connections asks it.
fn step_by<L: Law>(state: &L::State, way: Way, arg: &L::Arg) -> (L::State, L::Reply) {
    L::step(state, way, arg)
}

// The same in place.
fn advance_by<L: Law>(state: &mut L::State, way: Way, arg: &L::Arg) -> L::Reply {
    L::advance(state, way, arg)
}

fn due_by<L: Law>(state: &L::State, now: u64) -> bool {
    L::due(state, now)
}

/// What a packet makes of the flow, whether it is accepted, which way it is changed, and the flow's last time in nanoseconds. All
/// else must stay as the flow's opening made it, and at a packet that only peeks the whole flow. A step in place must come to the same.
fn step_text(alloc: Global, flow: &mut Flow, way: Way, arg: &FlowArg) -> Result<String> {
    let (next, reply) = step_by::<FlowLaw>(flow, way, arg);
    let rest = Flow {
        kind: next.kind,
        last: next.last,
        ..*flow
    };
    let mut moved = *flow;
    let told = advance_by::<FlowLaw>(&mut moved, way, arg);
    let accepted = match (arg.peek, reply.pass, next == rest, next == *flow) {
        _ if moved != next || told != reply => "other in place",
        (true, true, _, true) => "peeked",
        (false, true, true, _) => "accepted",
        (false, false, _, true) => "refused",
        _ => "changed where it stays",
    };
    *flow = next;
    let kind = kind_text(alloc, &next)?;
    Ok(format!(in alloc;
        "{kind} {accepted}, {}, last {}",
        change_text(&reply),
        next.last
    )?)
}

/// Which of the flow's two changes a reply has. All else in it is as the flow's opening made it.
fn change_text(reply: &FlowReply) -> &'static str {
    let there = FlowReply {
        pass: reply.pass,
        opener: 7,
        change: THERE,
        action: ACTION,
    };
    let back = FlowReply {
        change: BACK,
        ..there
    };
    if *reply == there {
        "there"
    } else if *reply == back {
        "back"
    } else {
        "another reply"
    }
}

/// Whether the flow is due at each of these times, by the law and by the function that it rests on.
fn due_text(alloc: Global, flow: &Flow, times: &[&str]) -> Result<String> {
    let mut answers = Vec::new(alloc);
    for time in times {
        let now = time.parse()?;
        answers.push(match (due(flow, now), due_by::<FlowLaw>(flow, now)) {
            (true, true) => "yes",
            (false, false) => "no",
            _ => "differs",
        })?;
    }
    Ok(answers.join(alloc, " ")?)
}
