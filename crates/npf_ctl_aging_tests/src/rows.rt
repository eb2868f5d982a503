// Which row a line has.
ghost use Rattle.std.specs.Prelude.{◌≡◌, IfOk};
ghost use Rattle.npf_traffic.specs.Phases.{packets_in};

use crate::packets::packets_of;
use anyhow::{Context, Result, bail};
use npf_ctl_aging::{aged, count_ticks};
use npf_ctl_schedule::laws::packets_add_up;
use npf_ctl_schedule::{changes_in, schedule};
use npf_ctl_script::{Script, read_script};
use npf_fixtures::texts::unescaped;
use npf_traffic::{Command, Phase};
use npf_types::limits::{MAX_CHANGES, MAX_TEXT_BYTES};
use std::alloc::Global;

/// Prints the row of a line, if it has one, and its answer.
pub fn answer_line(rt: &(impl Print + AllocGlobal), line: &str) -> Result<()> {
    if line.is_empty() || line.starts_with('#') {
        return Ok(());
    }
    let (word, text) = line.split_once(' ').unwrap_or((line, ""));
    print!(rt; "{line}")?;
    match word {
        "case" => Ok(println!(rt)?),
        "aged" => print_aged(rt, text),
        _ => bail!("no such row"),
    }
}

/// How many packets follow a multiple, and the parts of the phases: `SECONDS TIMES SCRIPT`.
fn print_aged(rt: &(impl Print + AllocGlobal), text: &str) -> Result<()> {
    let (seconds, rest) = text.split_once(' ').context("no times")?;
    let (times, script) = rest.split_once(' ').unwrap_or((rest, ""));
    let every: u32 = seconds.parse()?;
    if every == 0 {
        bail!("no period");
    }
    let packets = packets_of(rt.alloc(), times)?;
    let packets = packets.as_slice();
    println!(rt; " -> {}", count_ticks(every, packets))?;
    let phases = phases_of(rt.alloc(), script, packets.len())?;
    for part in &aged(rt.alloc(), every, packets, phases)? {
        print_phase(rt, part)?;
    }
    Ok(())
}

/// The phases of a run of so many packets with this script.
fn phases_of(alloc: Global, script: &str, packets: usize) -> Result<Vec<Phase>>
    ensures { IfOk result (λ phases. packets_in phases.items ≡ packets) }
{
    let script = script_of(alloc, script)?;
    let lines = script.lines.as_slice();
    if changes_in(lines) > MAX_CHANGES as u64 {
        bail!("too many changes");
    }
    let phases = schedule(alloc, lines, packets as u64)?;
    packets_add_up();
    Ok(phases)
}

fn script_of(alloc: Global, text: &str) -> Result<Script> {
    let text = unescaped(alloc, text)?;
    if text.len() > MAX_TEXT_BYTES {
        bail!("a long script");
    }
    Ok(read_script(alloc, &text)?)
}

fn print_phase(rt: &impl Print, phase: &Phase) -> Result<()> {
    print!(rt; "  {}", phase.packets)?;
    for command in phase.commands.as_slice() {
        match command {
            Command::Publish(place) => print!(rt; " publish {place}")?,
            Command::Expire(time) => print!(rt; " expire {time}")?,
        }
    }
    println!(rt)?;
    Ok(())
}
