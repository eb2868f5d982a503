// Where the phases of a run part as connections age, row by row. Standard input has a row a line, and its head tells which there are;
// each row is printed with its answer. What stdout wants is written out by hand.
#![tactic(auto)]

mod packets;
mod rows;

use anyhow::{Context, Result};
use rows::answer_line;
use std::io::{BufRead, BufReader};

fn main(rt: HostRuntime) -> Result<()> {
    let alloc = rt.alloc();
    for (index, line) in BufReader::new(alloc, rt.reader())?.lines(alloc).enumerate() {
        answer_line(&rt, &line?).context(format_args!("line {}", index + 1))?;
    }
    Ok(())
}
