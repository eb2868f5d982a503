// Captures as text.
ghost use Rattle.std.specs.Prelude.{IfOk};
ghost use Rattle.npf_pcap.specs.Spelling.{FitsCapture};

use anyhow::{Context, Result, anyhow, ensure};
use npf_pcap::{Capture, CaptureFault, Record, read_capture, write_capture};
use npf_types::List;
use npf_types::limits::{MAX_CAPTURE_BYTES, MAX_PACKET_BYTES};
use std::alloc::{AllocError, Global};

const MAX_TIME: u64 = 4_294_967_296_000_000_000;

/// What a capture of these bytes says, or its fault.
pub fn read_text(alloc: Global, bytes: &[u8]) -> Result<String> {
    ensure!(bytes.len() <= MAX_CAPTURE_BYTES, "too long for a capture");
    match read_capture(alloc, bytes) {
        Ok(capture) => Ok(capture_text(alloc, &capture)?),
        Err(fault) => fault_text(alloc, fault),
    }
}

/// The link, and of each record its time, its length and its last five bytes.
fn capture_text(alloc: Global, capture: &Capture) -> Result<String, AllocError> {
    let mut text = format!(in alloc; "{:?}", capture.link)?;
    for record in capture.records.as_slice() {
        let bytes = record.bytes.as_slice();
        let last = &bytes[bytes.len().saturating_sub(5)..];
        let last = hex::encode(alloc, last)?;
        write!(text, ", {} {}:{last}", record.time, bytes.len())?;
    }
    Ok(text)
}

/// The fault's number and name, and the number of the record that it speaks of.
pub fn fault_text(alloc: Global, fault: CaptureFault) -> Result<String> {
    let (number, name, record) = (fault.number(), fault.name(), fault.record_number());
    Ok(format!(in alloc; "{number} {name} {record:?}")?)
}

/// The bytes of a capture of these records, each a word `TIME=BYTES`.
pub fn written_text(alloc: Global, words: &[&str]) -> Result<String> {
    let bytes = match *words {
        [] => write_capture(alloc, &[])?,
        [first, second] => {
            write_capture(
                alloc,
                &[record_of(alloc, first)?, record_of(alloc, second)?],
            )?
        }
        _ => return Err(anyhow!("no or two records")),
    };
    Ok(hex::encode(alloc, &bytes)?)
}

fn record_of(alloc: Global, word: &str) -> Result<Record>
    ensures { IfOk result FitsCapture }
{
    let (time, digits) = word.split_once('=').context("a record is TIME=BYTES")?;
    let (time, bytes): (u64, Vec<u8>) = (time.parse()?, hex::decode(alloc, digits)?);
    ensure!(time < MAX_TIME, "a time has seconds of 32 bits");
    ensure!(bytes.len() <= MAX_PACKET_BYTES, "too long for a packet");
    Ok(Record {
        time,
        bytes: List::of_vec(bytes),
    })
}
