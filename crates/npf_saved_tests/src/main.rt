// Lines and files of saved connections, row by row. Standard input has a row a line, and its head tells which there are; each row is
// printed with its answer. What stdout wants comes from docs/FORMATS.md and from counting by hand, not from this program.
#![tactic(auto)]

mod rows;
mod setting;
mod texts;

use anyhow::{Context, Result};
use rows::answer_line;
use setting::Setting;
use std::io::{BufRead, BufReader};

fn main(rt: HostRuntime) -> Result<()> {
    let alloc = rt.alloc();
    let mut setting = Setting::new(alloc);
    for (index, line) in BufReader::new(alloc, rt.reader())?.lines(alloc).enumerate() {
        answer_line(&rt, &mut setting, &line?).context(format_args!("line {}", index + 1))?;
    }
    Ok(())
}
