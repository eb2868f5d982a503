// What packets and captures say, and what is written in packets, row by row. Standard input has a row a line, as its head comment
// says, and each row is printed with its answer. What stdout wants comes from the RFCs and pcap-savefile(5), from tcpdump, and
// from computation by hand.
#![tactic(auto)]

mod bytes;
mod capture;
mod decoding;
mod rewriting;

use anyhow::{Context, Result, anyhow};
use bytes::{parse_bytes, parse_link, parse_packet};
use capture::{fault_text, read_text, written_text};
use decoding::{decoding_text, extent_text, fragment_text};
use npf_pcap::CaptureFault;
use rewriting::rewritten_text;
use std::alloc::Global;
use std::io::{BufRead, BufReader};

fn main(rt: HostRuntime) -> Result<()> {
    laws();
    let alloc = rt.alloc();
    for (index, line) in BufReader::new(alloc, rt.reader())?.lines(alloc).enumerate() {
        answer_line(&rt, &line?).context(format_args!("line {}", index + 1))?;
    }
    Ok(())
}

/// The laws, none of which has a premise.
fn laws() {
    npf_packet::one_decoding();
    npf_packet::decoded_has_places();
    npf_packet::decoded_has_fields();
    npf_packet::decoded_is_packet();
    npf_packet::one_fragment();
    npf_packet::fragment_is_skipped();
    npf_rewrite::header_sum_follows();
    npf_rewrite::upper_sum_follows();
    npf_rewrite::neutral_sums_follow();
    npf_rewrite::absent_sum_stays();
    npf_rewrite::translated_decodes();
}

/// Prints the answer to a line, if it has a row.
fn answer_line(rt: &(impl Print + AllocGlobal), line: &str) -> Result<()> {
    let row = without_comment(line);
    if row.is_empty() {
        return Ok(());
    }
    let words: Vec<&str> = row.split_whitespace().collect(rt.alloc())?;
    println!(rt; "{row} -> {}", answer(rt.alloc(), &words)?)?;
    Ok(())
}

/// The line up to its comment, which `#` starts.
fn without_comment(line: &str) -> &str {
    match line.split_once('#') {
        Some((row, _)) => row.trim(),
        None => line.trim(),
    }
}

/// The answer to the row of these words.
fn answer(alloc: Global, words: &[&str]) -> Result<String> {
    match *words {
        ["decode", link, ref bytes @ ..] => {
            decoding_text(alloc, parse_link(link)?, &parse_packet(alloc, bytes)?)
        }
        ["extent", link, ref bytes @ ..] => {
            extent_text(alloc, parse_link(link)?, &parse_packet(alloc, bytes)?)
        }
        ["fragment", link, ref bytes @ ..] => {
            fragment_text(alloc, parse_link(link)?, &parse_packet(alloc, bytes)?)
        }
        ["rewrite", ref changes @ .., link, bytes] => {
            rewritten_text(
                alloc,
                changes,
                parse_link(link)?,
                hex::decode(alloc, bytes)?,
            )
        }
        ["capture", ref bytes @ ..] => read_text(alloc, &parse_bytes(alloc, bytes)?),
        ["longer", count, ref bytes @ ..] => {
            let mut bytes = parse_bytes(alloc, bytes)?;
            bytes.extend_from_slice(&vec![in alloc; 5; count.parse()?]?)?;
            read_text(alloc, &bytes)
        }
        ["memory"] => fault_text(alloc, CaptureFault::NoMemory),
        ["write", ref records @ ..] => written_text(alloc, records),
        _ => Err(anyhow!("no such row")),
    }
}
