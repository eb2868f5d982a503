// What `query` tells of classes, row by row; and drawn configurations and classes, whose answers are held against every packet of a small space.
//
// Standard input has a line each. `config TEXT` is the configuration from there on, in which `\n` ends a line. `query CLASS` is printed with what is
// told of the class, or with its fault; `deciders CLASS` alike without the packets; `steps MOST CLASS` as `query`, where the search may take so many
// steps; `maps CLASS` with the maps that are the first to apply to a packet of the class; `drawn SEED COUNT` with how many classes were asked about.
// The interfaces are wm0 and wm1; the table files are b, few and odd. What stdout wants was found by hand, and of the last rows by checks/every_packet.
#![tactic(auto)]

mod answers;
mod brute;
mod classes;
mod configs;
mod drawn;
mod draws;
mod loads;
mod maps;
mod packets;

use answers::{told, told_deciders};
use anyhow::{Context, Result, bail};
use drawn::ask_drawn;
use loads::Setting;
use maps::told_maps;
use std::io::{BufRead, BufReader};

// The steps of rows that give none.
const MOST: u64 = 1_000_000_000;

fn main(rt: HostRuntime) -> Result<()> {
    let alloc = rt.alloc();
    let mut setting = Setting::new(alloc);
    for (index, line) in BufReader::new(alloc, rt.reader())?.lines(alloc).enumerate() {
        answer_line(&rt, &mut setting, &line?).context(format_args!("line {}", index + 1))?;
    }
    Ok(())
}

/// Prints the answer to a line, if it has a row.
fn answer_line(rt: &(impl Print + AllocGlobal), setting: &mut Setting, line: &str) -> Result<()> {
    if line.is_empty() || line.starts_with('#') {
        return Ok(());
    }
    println!(rt; "{line}")?;
    match line.split_once(' ') {
        Some(("config", text)) => setting.set_text(rt.alloc(), text),
        Some(("query", class)) => {
            print!(rt; "{}", told(rt.alloc(), setting, class, MOST)?)?;
            Ok(())
        }
        Some(("deciders", class)) => {
            print!(rt; "{}", told_deciders(rt.alloc(), setting, class, MOST)?)?;
            Ok(())
        }
        Some(("maps", class)) => {
            print!(rt; "{}", told_maps(rt.alloc(), setting, class)?)?;
            Ok(())
        }
        Some(("steps", words)) => {
            let (most, class) = words.split_once(' ').context("no class")?;
            print!(rt;
                "{}",
                told(rt.alloc(), setting, class, most.parse::<u64>()?)?
            )?;
            Ok(())
        }
        Some(("drawn", words)) => {
            println!(rt; "  {} asked", ask_drawn(rt.alloc(), words)?)?;
            Ok(())
        }
        _ => bail!("no such row"),
    }
}
