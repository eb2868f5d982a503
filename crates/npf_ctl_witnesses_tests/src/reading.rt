// Files of witnesses, read again.
use anyhow::{Context, Result, bail};
use npf_ctl_script::{ScriptLine, read_script};
use npf_ctl_witnesses::WitnessFile;
use npf_model::{Ifaces, number_of_name};
use npf_packet::{Decoded, decode};
use npf_pcap::{Record, read_capture};
use npf_types::limits::{MAX_CAPTURE_BYTES, MAX_PACKET_BYTES, MAX_TEXT_BYTES};
use npf_types::{Dir, IfId, Link};
use npf_witness::write_witness;
use std::alloc::Global;
use std::str;

/// The script, and by the captures' order what each has.
pub fn written_again(alloc: Global, ifaces: &Ifaces, files: &[WitnessFile]) -> Result<String> {
    let (script, captures) = files.split_last().context("no script")?;
    let text = str::from_utf8(script.contents.as_slice())?;
    let mut told = format!(in alloc; "{}\n{}", str::from_utf8(script.name.as_slice())?, text)?;
    if text.len() > MAX_TEXT_BYTES {
        bail!("the script is too long");
    }
    let Ok(read) = read_script(alloc, text.as_bytes()) else {
        bail!("the script is refused");
    };
    for (capture, (_line, said)) in captures.iter().zip(read.lines.as_slice()) {
        let ScriptLine::Capture { name, dir, file } = said else {
            bail!("a capture without a line");
        };
        if file.as_slice() != capture.name.as_slice() {
            bail!("another capture's line");
        }
        let ifid = number_of_name(ifaces.list.as_slice(), name);
        told.push_str(str::from_utf8(capture.name.as_slice())?)?;
        told.push_str("\n")?;
        told.push_str(&records_again(alloc, ifaces, capture, ifid, *dir)?)?;
    }
    Ok(told)
}

fn records_again(
    alloc: Global,
    ifaces: &Ifaces,
    capture: &WitnessFile,
    ifid: IfId,
    dir: Dir,
) -> Result<String> {
    let bytes = capture.contents.as_slice();
    if bytes.len() > MAX_CAPTURE_BYTES {
        bail!("the capture is too long");
    }
    let Ok(read) = read_capture(alloc, bytes) else {
        bail!("the capture is refused");
    };
    let mut told = String::new(alloc);
    for record in read.records.as_slice() {
        told.push_str(&record_again(alloc, ifaces, record, ifid, dir)?)?;
    }
    Ok(told)
}

fn record_again(
    alloc: Global,
    ifaces: &Ifaces,
    record: &Record,
    ifid: IfId,
    dir: Dir,
) -> Result<String> {
    let bytes = record.bytes.as_slice();
    if bytes.len() > MAX_PACKET_BYTES {
        bail!("the packet is too long");
    }
    let Decoded::Ip(facts) = decode(Link::Raw, bytes) else {
        bail!("no packet");
    };
    let mut text = Vec::new(alloc);
    write_witness(alloc, &mut text, ifaces.list.as_slice(), &facts, ifid, dir)?;
    Ok(format!(in alloc; "  {} {}\n", record.time, str::from_utf8(text.as_slice())?)?)
}
