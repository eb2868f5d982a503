// The lines of a report, of outcomes that are written in words.
use crate::setting::Setting;
use anyhow::{Context, Result, bail};
use npf_core::{ConnId, Found};
use npf_ctl_output::put_total;
use npf_engine::{Outcome, Refusal};
use npf_fixtures::texts::print_lines;
use npf_outside::MemSink;
use npf_packet::BadPacket;
use npf_report::line;
use npf_runner::FragWhy;
use npf_types::{Decision, Dir, Name, Return, Way};

const ID: ConnId = ConnId { slot: 3, inc: 2 };

const HOLDER: Found = Found {
    id: ID,
    way: Way::Backward,
};

/// Prints the lines of an outcome, of the packet 1 that came in and of the packet 1,000,000 that went out.
pub fn print_outcome(
    rt: &(impl Print + AllocGlobal),
    setting: &mut Setting,
    text: &str,
) -> Result<()> {
    let words: Vec<&str> = text.split_whitespace().collect(rt.alloc())?;
    let outcome = parse_outcome(&words)?;
    let iface = parse_name("wm0")?;
    println!(rt)?;
    let first = line(rt.alloc(), 1, iface, Dir::In, &outcome)?;
    print_lines(rt, "  ", first.as_slice())?;
    let last = line(rt.alloc(), 1_000_000, iface, Dir::Out, &outcome)?;
    print_lines(rt, "  ", last.as_slice())?;
    setting.outcomes.push(outcome)?;
    Ok(())
}

/// Prints the line of the packet of a number, which crossed an interface in a direction, with an outcome.
pub fn print_packet(rt: &(impl Print + AllocGlobal), text: &str) -> Result<()> {
    let words: Vec<&str> = text.split_whitespace().collect(rt.alloc())?;
    let [number, name, dir, ref outcome @ ..] = *words.as_slice() else {
        bail!("no packet");
    };
    let outcome = parse_outcome(outcome)?;
    println!(rt)?;
    let told = line(
        rt.alloc(),
        number.parse()?,
        parse_name(name)?,
        parse_dir(dir)?,
        &outcome,
    )?;
    print_lines(rt, "  ", told.as_slice())
}

/// Prints the total line of the outcomes behind the last one.
pub fn print_total(rt: &(impl Print + AllocGlobal), setting: &mut Setting) -> Result<()> {
    println!(rt)?;
    let mut sink = MemSink::new(rt.alloc())?;
    if put_total(rt.alloc(), setting.outcomes.as_slice(), &mut sink).is_err() {
        bail!("no total");
    }
    setting.outcomes.clear();
    print_lines(rt, "  ", sink.bytes())
}

/// `skip`, `fragment WHY`, `cut AT`, `bad AT`, `conn OPENER PLACE pass|block [LOG]`, `none CONFIG [LOG]`, `pass CONFIG RULE KEPT [LOG]`,
/// `block CONFIG RULE RETURN [LOG]` or `drop CONFIG RULE WHY`; rules by their places, from 0.
fn parse_outcome(words: &[&str]) -> Result<Outcome> {
    match *words {
        ["skip"] => Ok(Outcome::Skip),
        ["fragment", why] => Ok(Outcome::Fragment {
            why: parse_fragment(why)?,
        }),
        ["cut", at] => Ok(Outcome::Malformed {
            why: BadPacket::Cut,
            at: at.parse()?,
        }),
        ["bad", at] => Ok(Outcome::Malformed {
            why: BadPacket::Bad,
            at: at.parse()?,
        }),
        ["conn", opener, place, verdict, ref log @ ..] => Ok(Outcome::ByConn {
            id: ID,
            opener: opener.parse()?,
            place: place.parse()?,
            pass: verdict == "pass",
            log: parse_log(log)?,
        }),
        ["drop", config, rule, why] => Ok(Outcome::Dropped {
            config: config.parse()?,
            rule: rule.parse()?,
            why: parse_why(why)?,
        }),
        _ => parse_verdict(words),
    }
}

fn parse_verdict(words: &[&str]) -> Result<Outcome> {
    let blocked = Decision::Block(Return::Nothing);
    match *words {
        ["none", config, ref log @ ..] => by_rule(config, None, blocked, None, log),
        ["pass", config, rule, "nothing", ref log @ ..] => {
            by_rule(config, Some(rule.parse()?), Decision::Pass, None, log)
        }
        ["pass", config, rule, "new", ref log @ ..] => {
            by_rule(config, Some(rule.parse()?), Decision::Pass, Some(ID), log)
        }
        ["pass", config, rule, why, ref log @ ..] => Ok(Outcome::Unkept {
            config: config.parse()?,
            rule: rule.parse()?,
            why: parse_why(why)?,
            log: parse_log(log)?,
        }),
        ["block", config, rule, answer, ref log @ ..] => {
            let blocked = Decision::Block(parse_return(answer)?);
            by_rule(config, Some(rule.parse()?), blocked, None, log)
        }
        _ => bail!("no such outcome"),
    }
}

fn by_rule(
    config: &str,
    rule: Option<u32>,
    decision: Decision,
    opened: Option<ConnId>,
    log: &[&str],
) -> Result<Outcome> {
    Ok(Outcome::ByRule {
        config: config.parse()?,
        rule,
        decision,
        opened,
        log: parse_log(log)?,
    })
}

fn parse_fragment(word: &str) -> Result<FragWhy> {
    match word {
        "held" => Ok(FragWhy::Held),
        "overlap" => Ok(FragWhy::Overlap),
        "bad" => Ok(FragWhy::Bad),
        _ => bail!("no fragment is held for this"),
    }
}

fn parse_why(word: &str) -> Result<Refusal> {
    match word {
        "full" => Ok(Refusal::Full),
        "nonode" => Ok(Refusal::NoNode),
        "taken" => Ok(Refusal::Taken(HOLDER)),
        "noport" => Ok(Refusal::NoPort),
        _ => bail!("no connection is refused for this"),
    }
}

fn parse_return(word: &str) -> Result<Return> {
    match word {
        "nothing" => Ok(Return::Nothing),
        "return" => Ok(Return::Any),
        "rst" => Ok(Return::Rst),
        "icmp" => Ok(Return::Icmp),
        _ => bail!("nothing is returned so"),
    }
}

fn parse_log(words: &[&str]) -> Result<Option<Name>> {
    match *words {
        [name] => Ok(Some(parse_name(name)?)),
        _ => Ok(None),
    }
}

fn parse_dir(word: &str) -> Result<Dir> {
    match word {
        "in" => Ok(Dir::In),
        "out" => Ok(Dir::Out),
        _ => bail!("no direction"),
    }
}

fn parse_name(word: &str) -> Result<Name> {
    Ok(Name::of(word.as_bytes()).context("no name")?)
}
