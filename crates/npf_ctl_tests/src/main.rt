// Whole runs of npfctl, row by row. Standard input has a row a line, and its head tells which there are; each row that asks something is
// printed with its answer. What stdout wants is written out by hand from docs/npfctl.8 and docs/FORMATS.md, and packets are made with
// sums of their own.
#![tactic(auto)]

mod captures;
mod folder;
mod gate;
mod packets;
mod preparing;
mod rows;
mod runs;
mod setting;
mod variants;

use anyhow::{Context, Result};
use rows::answer_line;
use setting::Setting;
use std::io::{BufRead, BufReader};

fn main(rt: HostRuntime) -> Result<()> {
    let alloc = rt.alloc();
    let mut setting = Setting::new(alloc);
    for (index, line) in BufReader::new(alloc, rt.reader())?.lines(alloc).enumerate() {
        answer_line(&rt, &mut setting, &line?).context(format_args!("line {}", index + 1))?;
    }
    Ok(())
}
