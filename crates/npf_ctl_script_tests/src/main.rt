// What the crates at the top of npfctl read and write, row by row: command lines, scripts, what they ask of a run, the lines of a report,
// and generated runs. Standard input has a row a line, and its head tells which there are; each row is printed with its answer. What
// stdout wants is written out by hand from docs/npfctl.8 and docs/FORMATS.md.
#![tactic(auto)]

mod generated;
mod outcomes;
mod rows;
mod schedules;
mod scripts;
mod setting;

use anyhow::{Context, Result};
use rows::answer_line;
use setting::Setting;
use std::io::{BufRead, BufReader};

fn main(rt: HostRuntime) -> Result<()> {
    let alloc = rt.alloc();
    let mut setting = Setting::new(alloc);
    for (index, line) in BufReader::new(alloc, rt.reader())?.lines(alloc).enumerate() {
        answer_line(&rt, &mut setting, &line?).context(format_args!("line {}", index + 1))?;
    }
    Ok(())
}
