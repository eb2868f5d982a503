// Which row a line has.
ghost use Rattle.std.specs.Prelude.{◌≡◌};
ghost use Rattle.npf_connections.specs.Pass.{all_places};
ghost use Rattle.npf_connections.specs.Stay.{IsOut};
ghost use Rattle.npf_flow.specs.Flows.{flow_law};

use crate::attempts::{attempt_of, number};
use anyhow::{Context, Result, bail};
use npf_connections::Connections;
use npf_connsave::save;
use npf_core::Stepped;
use npf_engine_opening::{Attempt, Opened, open};
use npf_flow::FlowLaw;
use npf_types::Name;
use std::alloc::Global;
use std::fmt::Write;
use std::str;
use std::sync::Wait;

/// The text that was saved last, with the lines that were added, and what was told of all rows.
#[derive(Drop)]
pub struct Texts {
    pub saved: Vec<u8>,
    pub told: String,
}

/// Tells each row with its answer.
pub fn answer_rows<C: Connections<FlowLaw>>(
    rt: &impl Wait,
    alloc: Global,
    conns: &C,
    pass: &mut C::Pass,
    rows: &[String],
    texts: &mut Texts,
) -> Result<()>
    requires out { IsOut flow_law (C.fits conns.now) C.view pass.old }
    requires sole { (C.view pass.old).places ≡ all_places }
{
    for row in rows {
        answer_row(rt, alloc, conns, pass, row.as_str(), texts)?;
    }
    Ok(())
}

/// Tells the row of a line, if it has one, and its answer.
fn answer_row<C: Connections<FlowLaw>>(
    rt: &impl Wait,
    alloc: Global,
    conns: &C,
    pass: &mut C::Pass,
    line: &str,
    texts: &mut Texts,
) -> Result<()>
    requires out { IsOut flow_law (C.fits conns.now) C.view pass.old }
    requires sole { (C.view pass.old).places ≡ all_places }
    ensures out { IsOut flow_law (C.fits conns.now) C.view pass.new }
    ensures sole { (C.view pass.new).places ≡ all_places }
{
    if line.is_empty() || line.starts_with('#') {
        return Ok(());
    }
    texts.told.push_str(line)?;
    let (word, rest) = line.split_once(' ').unwrap_or((line, ""));
    match word {
        "case" => Ok(texts.told.push('\n')?),
        "open" => {
            let attempt = attempt_of(rest)?;
            let opened = open_one(rt, conns, pass, &attempt);
            tell_opened(&mut texts.told, &opened)
        }
        "expire" => {
            let now = number(Some(rest))?;
            let count = conns.expire(rt, pass, now);
            Ok(write!(texts.told, " -> {count}\n")?)
        }
        "save" => tell_saved(rt, alloc, conns, pass, rest, texts),
        "line" => {
            texts.saved.extend_from_slice(rest.as_bytes())?;
            texts.saved.push(b'\n')?;
            Ok(texts.told.push('\n')?)
        }
        _ => bail!("no such row"),
    }
}

/// What the packet becomes, in a stay of its own.
fn open_one<C: Connections<FlowLaw>>(
    rt: &impl Wait,
    conns: &C,
    pass: &mut C::Pass,
    attempt: &Attempt,
) -> Opened
    requires out { IsOut flow_law (C.fits conns.now) C.view pass.old }
    requires sole { (C.view pass.old).places ≡ all_places }
    ensures out { IsOut flow_law (C.fits conns.now) C.view pass.new }
    ensures sole { (C.view pass.new).places ≡ all_places }
{
    conns.enter(rt, pass);
    let opened = open(rt, conns, pass, attempt);
    conns.leave(rt, pass);
    opened
}

/// Tells what became of a packet: of a connection that took it, the packet that opened it, and its step.
fn tell_opened(told: &mut String, opened: &Opened) -> Result<()> {
    match opened {
        Opened::Open { .. } => write!(told, " -> opened\n")?,
        Opened::Known {
            answer: Stepped::Done { reply, place },
            ..
        } => write!(told, " -> conn {} step {place}\n", reply.opener)?,
        Opened::Known { .. } => write!(told, " -> not live\n")?,
        Opened::Refused(_) => write!(told, " -> refused\n")?,
    }
    Ok(())
}

/// Tells the table's text for a run of these interfaces, and keeps it.
fn tell_saved<C: Connections<FlowLaw>>(
    rt: &impl Wait,
    alloc: Global,
    conns: &C,
    pass: &mut C::Pass,
    names: &str,
    texts: &mut Texts,
) -> Result<()>
    requires out { IsOut flow_law (C.fits conns.now) C.view pass.old }
    requires sole { (C.view pass.old).places ≡ all_places }
    ensures out { IsOut flow_law (C.fits conns.now) C.view pass.new }
    ensures sole { (C.view pass.new).places ≡ all_places }
{
    let names = names_of(alloc, names)?;
    texts.saved = save(rt, alloc, conns, pass, names.as_slice())?;
    texts.told.push('\n')?;
    texts
        .told
        .push_str(str::from_utf8(texts.saved.as_slice())?)?;
    Ok(())
}

pub fn names_of(alloc: Global, text: &str) -> Result<Vec<Name>> {
    let mut names = Vec::new(alloc);
    for word in text.split_whitespace() {
        names.push(Name::of(word.as_bytes()).context("no name")?)?;
    }
    Ok(names)
}
