// What `check` tells of files of expectations, row by row.
//
// Standard input has a line each, in which `\n` ends a line of a text. `config TEXT` is the configuration from there on. `check TEXT` is printed with
// what is told of the file `e` with this text, or with its fault; `steps MOST TEXT` alike, where the searches may take so many steps. The interfaces are
// wm0 and wm1; the table file b has two entries. What stdout wants was found by hand.
#![tactic(auto)]

mod answers;
mod loads;

use answers::told;
use anyhow::{Context, Result, bail};
use loads::Setting;
use std::io::{BufRead, BufReader};

// The steps of rows that give none.
const MOST: u64 = 1_000_000_000;

fn main(rt: HostRuntime) -> Result<()> {
    let alloc = rt.alloc();
    let mut setting = Setting::new(alloc);
    for (index, line) in BufReader::new(alloc, rt.reader())?.lines(alloc).enumerate() {
        answer_line(&rt, &mut setting, &line?).context(format_args!("line {}", index + 1))?;
    }
    Ok(())
}

/// Prints the answer to a line, if it has a row.
fn answer_line(rt: &(impl Print + AllocGlobal), setting: &mut Setting, line: &str) -> Result<()> {
    if line.is_empty() || line.starts_with('#') {
        return Ok(());
    }
    println!(rt; "{line}")?;
    let (word, behind) = match line.split_once(' ') {
        Some(parts) => parts,
        None => (line, ""),
    };
    match word {
        "config" => setting.set_text(rt.alloc(), behind),
        "check" => {
            print!(rt; "{}", told(rt.alloc(), setting, behind, MOST)?)?;
            Ok(())
        }
        "steps" => {
            let (most, text) = behind.split_once(' ').context("no text")?;
            print!(rt;
                "{}",
                told(rt.alloc(), setting, text, most.parse::<u64>()?)?
            )?;
            Ok(())
        }
        _ => bail!("no such row"),
    }
}
