// What `compare` tells of pairs of configurations, row by row.
//
// Standard input has a line each. `old TEXT` and `new TEXT` are the configurations from there on, in which `\n` ends a line. `compare` is printed with what
// is told of both; `pairs` alike without the packets; `steps MOST` as `compare`, where the searches may take so many steps. The interfaces are those of the
// last line `ifaces TEXT`; the table files are b, few and odd. What stdout wants was found by hand, and of the last rows by checks/every_packet.
#![tactic(auto)]

mod loads;

use anyhow::{Context, Result, bail};
use loads::Setting;
use npf_ctl_compare::compare_loaded;
use npf_ctl_messages::message;
use std::alloc::Global;
use std::io::{BufRead, BufReader};

// The steps of rows that give none.
const MOST: u64 = 1_000_000_000;

fn main(rt: HostRuntime) -> Result<()> {
    let alloc = rt.alloc();
    let mut setting = Setting::new(alloc);
    for (index, line) in BufReader::new(alloc, rt.reader())?.lines(alloc).enumerate() {
        answer_line(&rt, &mut setting, &line?).context(format_args!("line {}", index + 1))?;
    }
    Ok(())
}

/// Prints the answer to a line, if it has a row.
fn answer_line(rt: &(impl Print + AllocGlobal), setting: &mut Setting, line: &str) -> Result<()> {
    if line.is_empty() || line.starts_with('#') {
        return Ok(());
    }
    println!(rt; "{line}")?;
    match line.split_once(' ') {
        Some(("ifaces", text)) => setting.set_ifaces(rt.alloc(), text),
        Some(("old", text)) => setting.set_old(rt.alloc(), text),
        Some(("new", text)) => setting.set_new(rt.alloc(), text),
        Some(("steps", most)) => print_told(rt, setting, most.parse::<u64>()?),
        None if line == "compare" => print_told(rt, setting, MOST),
        None if line == "pairs" => print_pairs(rt, setting),
        _ => bail!("no such row"),
    }
}

/// Prints the lines of the answer, or of the fault, each indented.
fn print_told(rt: &(impl Print + AllocGlobal), setting: &Setting, most: u64) -> Result<()> {
    for line in told(rt.alloc(), setting, most)?.lines() {
        println!(rt; "  {line}")?;
    }
    Ok(())
}

/// The same without packets.
fn print_pairs(rt: &(impl Print + AllocGlobal), setting: &Setting) -> Result<()> {
    for line in told(rt.alloc(), setting, MOST)?.lines() {
        println!(rt; "  {}", pair_in(line))?;
    }
    Ok(())
}

/// What stands in a line before its packet, which begins with a direction.
fn pair_in(line: &str) -> &str {
    for way in [" in on ", " out on "] {
        if let Some((pair, _)) = line.split_once(way) {
            return pair;
        }
    }
    line
}

/// What is told of the configurations, or the fault.
fn told(alloc: Global, setting: &Setting, most: u64) -> Result<String> {
    let old = setting.old_config(alloc)?;
    let new = setting.new_config(alloc)?;
    let ifaces = setting.ifaces(alloc)?;
    let text = match compare_loaded(alloc, ifaces, old, new, most) {
        Ok(answer) => answer.text,
        Err(fault) => message(alloc, &fault)?,
    };
    Ok(String::from_utf8_lossy(alloc, text.as_slice())?)
}
