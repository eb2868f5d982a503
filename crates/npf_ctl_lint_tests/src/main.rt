// What `lint` tells of configurations, row by row.
//
// Standard input has a line each. `config TEXT` is the configuration from there on, in which `\n` ends a line. `lint` is printed with what is told of it;
// `steps MOST` alike, where the search may take so many steps. The interfaces are wm0 and wm1; the table files are b, few and odd. What stdout wants was
// found by hand, and of the last rows by checks/every_packet.
#![tactic(auto)]

mod loads;

use anyhow::{Context, Result, bail};
use loads::Setting;
use npf_ctl_lint::{LintAnswer, lint_text};
use npf_ctl_messages::{CommandFault, message};
use npf_interfaces::{model_names, with_names};
use std::alloc::Global;
use std::io::{BufRead, BufReader};

// The steps of rows that give none.
const MOST: u64 = 1_000_000_000;

fn main(rt: HostRuntime) -> Result<()> {
    let alloc = rt.alloc();
    let mut setting = Setting::new(alloc);
    for (index, line) in BufReader::new(alloc, rt.reader())?.lines(alloc).enumerate() {
        answer_line(&rt, &mut setting, &line?).context(format_args!("line {}", index + 1))?;
    }
    Ok(())
}

/// Prints the answer to a line, if it has a row.
fn answer_line(rt: &(impl Print + AllocGlobal), setting: &mut Setting, line: &str) -> Result<()> {
    if line.is_empty() || line.starts_with('#') {
        return Ok(());
    }
    println!(rt; "{line}")?;
    match line.split_once(' ') {
        Some(("config", text)) => setting.set_text(rt.alloc(), text),
        Some(("steps", most)) => print_told(rt, setting, most.parse::<u64>()?),
        None if line == "lint" => print_told(rt, setting, MOST),
        _ => bail!("no such row"),
    }
}

/// Prints the lines of the answer, or of the fault, each indented.
fn print_told(rt: &(impl Print + AllocGlobal), setting: &Setting, most: u64) -> Result<()> {
    let alloc = rt.alloc();
    let text = match answer(alloc, setting, most)? {
        Ok(answer) => answer.text,
        Err(fault) => message(alloc, &fault)?,
    };
    for line in String::from_utf8_lossy(alloc, text.as_slice())?.lines() {
        println!(rt; "  {line}")?;
    }
    Ok(())
}

/// What is told of the configuration, by the numbers of the interfaces that it names.
fn answer(
    alloc: Global,
    setting: &Setting,
    most: u64,
) -> Result<std::result::Result<LintAnswer, CommandFault>> {
    let mut config = setting.config(alloc)?;
    let Ok(ifaces) = loads::run_ifaces(alloc) else {
        bail!("the interfaces are refused");
    };
    let names = model_names(alloc, config.model())?;
    let ifaces = with_names(alloc, ifaces, names.as_slice())?;
    config.number(&ifaces);
    Ok(lint_text(alloc, &config, most))
}
