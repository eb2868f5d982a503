// Packets of UDP as rows have them.
use anyhow::{Context, Result};
use npf_engine_opening::Attempt;
use npf_flow::{FlowArg, FlowSettings};
use npf_nat::MapPlan;
use npf_types::{Action, Addr, Change, Facts, IfId, L4};

const NO_ACTION: Action = Action {
    min_ttl: None,
    max_mss: None,
    no_df: false,
    log: None,
};

const UNCHANGED: Change = Change {
    src: None,
    dst: None,
    neutral: false,
};

/// What a rule without a map makes of a packet.
const UNMAPPED: MapPlan = MapPlan::Fixed {
    there: UNCHANGED,
    back: UNCHANGED,
};

/// The packet `NUMBER TIME FROM PORT TO PORT` on the interface 1, or, with an address and a port behind that, one that a map
/// translates to these.
pub fn attempt_of(text: &str) -> Result<Attempt> {
    let mut words = text.split_whitespace();
    let packet = number(words.next())?;
    let now = number(words.next())?;
    let src = address(words.next())?;
    let sport = port(words.next())?;
    let dst = address(words.next())?;
    let dport = port(words.next())?;
    let plan = match words.next() {
        None => UNMAPPED,
        Some(gateway) => drawn(address(Some(gateway))?, port(words.next())?),
    };
    let facts = Facts {
        src,
        dst,
        proto: 17,
        ip_at: 0,
        l4_at: 20,
        end: 28,
        l4: L4::Udp { sport, dport },
    };
    Ok(Attempt {
        packet,
        facts,
        ifid: IfId(1),
        arg: FlowArg {
            now,
            seg: None,
            peek: false,
        },
        settings: FlowSettings::DEFAULT,
        action: NO_ACTION,
        plan,
    })
}

/// What a map draws that has one port.
fn drawn(addr: Addr, port: u16) -> MapPlan {
    MapPlan::Draw {
        addr,
        min: port,
        max: port,
        first: port,
    }
}

pub fn number(word: Option<&str>) -> Result<u64> {
    Ok(word.context("no number")?.parse::<u64>()?)
}

fn port(word: Option<&str>) -> Result<u16> {
    Ok(word.context("no port")?.parse::<u16>()?)
}

fn address(word: Option<&str>) -> Result<Addr> {
    let word = word.context("no address")?;
    Addr::parse_ascii(word.as_bytes()).context("no such address")
}
