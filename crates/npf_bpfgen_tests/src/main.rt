// Classic BPF, row by row: programs that are validated (npf_bpf) and run (npf_bpfvm), and rules compiled to programs (npf_bpfgen).
//
// Standard input has a row a line, as its head comment says, and each is printed with its answer. What stdout wants comes from
// libpcap's bpf_filter and from tcpdump, each beside its rows, and by hand from bpf(4); none of it comes from this program.
#![tactic(auto)]

mod assembler;
mod packets;
mod rules;
mod weighed;

use anyhow::{Context, Result, anyhow};
use assembler::{parse_insn, parse_program};
use npf_bpf::{Program, decode, validate};
use npf_bpfgen::compile;
use packets::value_on;
use rules::parse_rule;
use std::alloc::Global;
use std::io::{BufRead, BufReader};
use weighed::weighed;

fn main(rt: HostRuntime) -> Result<()> {
    let alloc = rt.alloc();
    let mut packets = Vec::new(alloc);
    for (index, line) in BufReader::new(alloc, rt.reader())?.lines(alloc).enumerate() {
        answer_line(&rt, &mut packets, &line?).context(format_args!("line {}", index + 1))?;
    }
    Ok(())
}

/// Prints the answer to a line, if it has a row.
fn answer_line(
    rt: &(impl Print + AllocGlobal),
    packets: &mut Vec<Vec<u8>>,
    line: &str,
) -> Result<()> {
    let row = without_comment(line);
    if row.is_empty() {
        return Ok(());
    }
    println!(rt; "{row} -> {}", answer(rt.alloc(), packets, row)?)?;
    Ok(())
}

/// The line up to its comment, which `#` and a blank start.
fn without_comment(line: &str) -> &str {
    match line.split_once("# ") {
        Some((row, _)) => row.trim(),
        None => line.trim(),
    }
}

fn answer(alloc: Global, packets: &mut Vec<Vec<u8>>, row: &str) -> Result<String> {
    let (subject, rest) = row.split_once(' ').unwrap_or((row, ""));
    match subject {
        "packet" => {
            packets.clear();
            add_packet(alloc, packets, rest)
        }
        "and" => add_packet(alloc, packets, rest),
        "program" => program_text(alloc, rest, packets),
        "decode" => {
            let words: Vec<&str> = rest.split_whitespace().collect(alloc)?;
            Ok(format!(in alloc; "{:?}", decode(parse_insn(&words)?))?)
        }
        "rule" => rule_text(alloc, rest, packets),
        _ => Err(anyhow!("no such row")),
    }
}

/// Adds a packet, and tells how many there are.
fn add_packet(alloc: Global, packets: &mut Vec<Vec<u8>>, digits: &str) -> Result<String> {
    packets.push(hex::decode(alloc, digits)?)?;
    Ok(format!(in alloc; "{}", packets.len())?)
}

/// What the program returns on each packet, or where it is refused.
fn program_text(alloc: Global, text: &str, packets: &[Vec<u8>]) -> Result<String> {
    match validate(parse_program(alloc, text)?) {
        Ok(program) => values_text(alloc, &program, packets),
        Err(bad) => Ok(format!(in alloc; "refused at {}", bad.at)?),
    }
}

fn values_text(alloc: Global, program: &Program, packets: &[Vec<u8>]) -> Result<String> {
    let mut values: Vec<String> = Vec::new(alloc);
    for packet in packets {
        values.push(format!(in alloc; "0x{:x}", value_on(program, packet))?)?;
    }
    Ok(values.join(alloc, " ")?)
}

/// The rule's weight, and which packets its program finds, or why it has none.
fn rule_text(alloc: Global, text: &str, packets: &[Vec<u8>]) -> Result<String> {
    let (rule, weight) = weighed(parse_rule(alloc, text)?)?;
    match compile(alloc, &rule) {
        Ok(program) => Ok(format!(in alloc; "{weight} {}", marks(alloc, &program, packets)?)?),
        Err(fault) => Ok(format!(in alloc; "{fault}")?),
    }
}

/// An `x` for each packet that the program finds, and a dot for each other.
fn marks(alloc: Global, program: &Program, packets: &[Vec<u8>]) -> Result<String> {
    let mut marks = String::new(alloc);
    for packet in packets {
        marks.push(match value_on(program, packet) {
            0xffff_ffff => 'x',
            0 => '.',
            _ => '?',
        })?;
    }
    Ok(marks)
}
