// What no clause says of a dimension: that its classes are as few as can be, in the order of their least numbers, and what its steps are; and
// that its definitions mean what a plain program of them does, number by number. Standard input has a row a line, and each row is printed
// with its answer.
#![tactic(auto)]

mod beside;
mod rows;

use anyhow::Result;
use rows::answer;
use std::io::{BufRead, BufReader};

fn main(rt: HostRuntime) -> Result<()> {
    let alloc = rt.alloc();
    for line in BufReader::new(alloc, rt.reader())?.lines(alloc) {
        let line = line?;
        if !line.is_empty() && !line.starts_with('#') {
            let answer = answer(alloc, &line)?;
            println!(rt; "{line} -> {answer}")?;
        }
    }
    Ok(())
}
