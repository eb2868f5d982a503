// Which row a line has.
use crate::generated::{generate_run, print_hex, print_packets, print_texts};
use crate::outcomes::{print_outcome, print_packet, print_total};
use crate::schedules::{print_counts, print_schedule};
use crate::scripts::{print_line, print_script};
use crate::setting::Setting;
use anyhow::{Result, bail};
use npf_ctl_messages::{CommandFault, message};
use npf_ctl_words::read_words;
use npf_fixtures::texts::{print_lines, words_in};

/// Prints the row of a line, if it has one, and its answer.
pub fn answer_line(
    rt: &(impl Print + AllocGlobal),
    setting: &mut Setting,
    line: &str,
) -> Result<()> {
    if line.is_empty() || line.starts_with('#') {
        return Ok(());
    }
    let (word, text) = line.split_once(' ').unwrap_or((line, ""));
    print!(rt; "{line}")?;
    match word {
        "outcome" => print_outcome(rt, setting, text),
        "total" => print_total(rt, setting),
        "generate" => generate_run(rt, setting, text),
        "texts" => print_texts(rt, setting),
        "hex" => print_hex(rt, setting, text),
        "packets" => print_packets(rt, setting),
        _ => answer_alone(rt, word, text),
    }
}

/// Prints the answer to a row that asks nothing of what stands before.
fn answer_alone(rt: &(impl Print + AllocGlobal), word: &str, text: &str) -> Result<()> {
    match word {
        "case" => Ok(println!(rt)?),
        "words" => print_words(rt, text),
        "script" => print_script(rt, text),
        "line" => print_line(rt, text),
        "schedule" => print_schedule(rt, text),
        "counts" => print_counts(rt, text),
        "packet" => print_packet(rt, text),
        "memory" => print_memory(rt),
        _ => bail!("no such row"),
    }
}

/// What a command line is read to.
fn print_words(rt: &(impl Print + AllocGlobal), text: &str) -> Result<()> {
    let words = words_in(rt.alloc(), text)?;
    let command = read_words(rt.alloc(), words.as_slice());
    println!(rt; " -> {command:?}")?;
    Ok(())
}

/// The status and the line of want of memory.
fn print_memory(rt: &(impl Print + AllocGlobal)) -> Result<()> {
    let fault = CommandFault::NoMemory;
    println!(rt; " -> {}", fault.status())?;
    print_lines(rt, "  ", message(rt.alloc(), &fault)?.as_slice())
}
