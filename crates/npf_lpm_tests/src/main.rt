// What no clause says of a table of prefixes: that its definitions mean what RFC 4632 section 3.1 and RFC 4291 section
// 2.3 say, and that a large table answers as the plain program of the definition does: a hash set of the prefixes,
// which a look-up asks once for each length. Standard input has a row a line, and each row is printed with its answers.
#![tactic(auto)]

mod beside;
mod draws;

use anyhow::{Context, Result, anyhow};
use beside::agrees;
use npf_lpm::Lpm;
use npf_types::{Addr, Prefix};
use std::alloc::Global;
use std::io::{BufRead, BufReader};

fn main(rt: HostRuntime) -> Result<()> {
    let alloc = rt.alloc();
    let mut table = Lpm::new(alloc);
    for (index, line) in BufReader::new(alloc, rt.reader())?.lines(alloc).enumerate() {
        answer_line(&rt, &mut table, &line?).context(format_args!("line {}", index + 1))?;
    }
    Ok(())
}

/// Prints the answers to a line, if it has a row.
fn answer_line(rt: &(impl Print + AllocGlobal), table: &mut Lpm, line: &str) -> Result<()> {
    if line.is_empty() || line.starts_with('#') {
        return Ok(());
    }
    let words: Vec<&str> = line.split_whitespace().collect(rt.alloc())?;
    let (name, others) = words.split_first().context("no name")?;
    let mut answers = Vec::new(rt.alloc());
    for word in others {
        answers.push(answer(rt.alloc(), table, name, word)?)?;
    }
    println!(rt; "{line} -> {answers:?}")?;
    Ok(())
}

/// The answer of the row of this name for one of its other words.
fn answer(alloc: Global, table: &mut Lpm, name: &str, word: &str) -> Result<bool> {
    match name {
        "insert" => Ok(table.insert(parse_prefix(word)?)?),
        "remove" => Ok(table.remove(parse_prefix(word)?)),
        "has" => Ok(table.contains(parse_addr(word)?)),
        "len" => Ok(table.len() == word.parse()?),
        "large" => agrees(alloc, word.parse()?, 100_000, 50),
        "grown" => agrees(alloc, word.parse()?, 0, 2_200),
        "copy" => {
            let copy = table.copy()?;
            *table = copy;
            Ok(word == "table")
        }
        _ => Err(anyhow!("no such row")),
    }
}

fn parse_prefix(word: &str) -> Result<Prefix> {
    let (addr, len) = word.split_once('/').context("a prefix is ADDRESS/LENGTH")?;
    Prefix::of(parse_addr(addr)?, len.parse()?).context("too long for the family")
}

fn parse_addr(word: &str) -> Result<Addr> {
    Addr::parse_ascii(word.as_bytes()).context("no address")
}
