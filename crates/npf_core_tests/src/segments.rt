// Rows of segments: a connection of TCP as a filter follows it.

use crate::words::{parse_flags, parse_segment, parse_way};
use anyhow::{Result, anyhow};
use npf_tcp::{Known, TcpPhase, TcpSide, TcpState, open_tcp, step_tcp};
use npf_types::{Segment, Way};
use std::alloc::Global;
use std::fmt;

pub fn answer(alloc: Global, state: &mut TcpState, words: &[&str]) -> Result<String> {
    match *words {
        ["open", "strict", ref segment @ ..] => open_text(alloc, state, segment, true),
        ["open", ref segment @ ..] => open_text(alloc, state, segment, false),
        ["windows"] => Ok(format!(in alloc; "{} {}", state.forward.maxwin, state.backward.maxwin)?),
        ["side", "there"] => Ok(format!(in alloc; "{:?}", state.forward)?),
        ["side", "back"] => Ok(format!(in alloc; "{:?}", state.backward)?),
        ["cells", phase, way, ref flags @ ..] => {
            let connection = nothing_seen(parse_phase(phase)?);
            cells_text(alloc, &connection, parse_way(way)?, flags)
        }
        [way, ref segment @ ..] => {
            let (next, verdict) = step(state, parse_way(way)?, &parse_segment(segment)?);
            *state = next;
            Ok(format!(in alloc; "{verdict}")?)
        }
        [] => Err(anyhow!("no row")),
    }
}

/// The phase of the connection that this segment opens.
fn open_text(
    alloc: Global,
    state: &mut TcpState,
    segment: &[&str],
    strict: bool,
) -> Result<String> {
    *state = open_tcp(&parse_segment(segment)?, strict);
    Ok(format!(in alloc; "{:?}", state.phase)?)
}

/// What a segment is answered.
#[derive(Clone, Copy)]
enum Verdict {
    Accepted(TcpPhase),
    Refused,
    RefusedAndChanged,
}

impl fmt::Display for Verdict {
    fn fmt<W: fmt::Write>(&self, f: &mut fmt::Formatter<W>) -> fmt::Result {
        match self {
            Verdict::Accepted(phase) => write!(f, "{phase:?}"),
            Verdict::Refused => write!(f, "refused"),
            Verdict::RefusedAndChanged => write!(f, "refused, but changed"),
        }
    }
}

fn step(state: &TcpState, way: Way, segment: &Segment) -> (TcpState, Verdict) {
    let (next, accepted) = step_tcp(state, way, segment);
    let verdict = if accepted {
        Verdict::Accepted(next.phase)
    } else if next == *state {
        Verdict::Refused
    } else {
        Verdict::RefusedAndChanged
    };
    (next, verdict)
}

/// What segments with each of these flags are answered.
fn cells_text(alloc: Global, connection: &TcpState, way: Way, flags: &[&str]) -> Result<String> {
    let mut cells: Vec<String> = Vec::new(alloc);
    for word in flags {
        let segment = Segment {
            flags: parse_flags(word)?,
            seq: 1,
            ack: 1,
            win: 1,
            len: 0,
            scale: None,
        };
        let (_, verdict) = step(connection, way, &segment);
        cells.push(format!(in alloc; "{verdict}")?)?;
    }
    Ok(cells.join(alloc, " ")?)
}

/// A connection in this phase with no side seen, so that no bound holds and the table of phases alone decides.
pub fn nothing_seen(phase: TcpPhase) -> TcpState {
    let side = TcpSide {
        known: Known::Nothing,
        end: 0,
        maxend: 0,
        maxwin: 0,
        scale: None,
    };
    TcpState {
        phase,
        forward: side,
        backward: side,
        strict: false,
    }
}

pub fn parse_phase(word: &str) -> Result<TcpPhase> {
    match word {
        "Closed" => Ok(TcpPhase::Closed),
        "SynSent" => Ok(TcpPhase::SynSent),
        "SimsynSent" => Ok(TcpPhase::SimsynSent),
        "SynReceived" => Ok(TcpPhase::SynReceived),
        "Established" => Ok(TcpPhase::Established),
        "FinSent" => Ok(TcpPhase::FinSent),
        "FinReceived" => Ok(TcpPhase::FinReceived),
        "CloseWait" => Ok(TcpPhase::CloseWait),
        "FinWait" => Ok(TcpPhase::FinWait),
        "Closing" => Ok(TcpPhase::Closing),
        "LastAck" => Ok(TcpPhase::LastAck),
        "TimeWait" => Ok(TcpPhase::TimeWait),
        _ => Err(anyhow!("no such phase")),
    }
}
