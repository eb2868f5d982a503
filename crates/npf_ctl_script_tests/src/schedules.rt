// What a script asks of a run.
use crate::scripts::script_of;
use anyhow::{Result, bail};
use npf_ctl_schedule::{captures_in, changes_in, phases_in, run_interfaces, schedule};
use npf_model::Ifaces;
use npf_runner::{Command, Phase};
use npf_types::List;
use npf_types::limits::MAX_CHANGES;
use std::str;

/// Prints the phases of a run: `PACKETS SCRIPT`.
pub fn print_schedule(rt: &(impl Print + AllocGlobal), text: &str) -> Result<()> {
    let (packets, script) = text.split_once(' ').unwrap_or((text, ""));
    let script = script_of(rt.alloc(), script)?;
    let lines = script.lines.as_slice();
    if changes_in(lines) > MAX_CHANGES as u64 {
        bail!("too many changes");
    }
    println!(rt)?;
    for phase in &schedule(rt.alloc(), lines, packets.parse()?)? {
        print_phase(rt, phase)?;
    }
    Ok(())
}

fn print_phase(rt: &impl Print, phase: &Phase) -> Result<()> {
    print!(rt; "  {}", phase.packets)?;
    for command in phase.commands.as_slice() {
        match command {
            Command::Publish(place) => print!(rt; " publish {place}")?,
            Command::Expire(time) => print!(rt; " expire {time}")?,
        }
    }
    println!(rt)?;
    Ok(())
}

/// Prints how many captures, phases and changes a script has, and the interfaces that it names.
pub fn print_counts(rt: &(impl Print + AllocGlobal), text: &str) -> Result<()> {
    let script = script_of(rt.alloc(), text)?;
    let lines = script.lines.as_slice();
    let (captures, phases, changes) = (captures_in(lines), phases_in(lines), changes_in(lines));
    print!(rt; "\n  {captures} {phases} {changes}")?;
    let given = Ifaces {
        list: List::of_vec(Vec::new(rt.alloc())),
    };
    for iface in run_interfaces(rt.alloc(), given, lines)?.list.as_slice() {
        print!(rt; " {}", str::from_utf8(iface.name.as_bytes())?)?;
    }
    println!(rt)?;
    Ok(())
}
