// Generated runs, and what their files hold.
use crate::setting::Setting;
use anyhow::{Context, Result, bail};
use npf_fixtures::texts::print_lines;
use npf_gen::{Workload, capture_has_length, capture_reads_again, generate, sums_verify};
use npf_pcap::read_capture;
use npf_types::limits::MAX_CAPTURE_BYTES;

/// Generates the run of this number, of which the next rows ask.
pub fn generate_run(
    rt: &(impl Print + AllocGlobal),
    setting: &mut Setting,
    number: &str,
) -> Result<()> {
    capture_has_length();
    capture_reads_again();
    sums_verify();
    setting.workload = Some(generate(rt.alloc(), number.parse()?)?);
    println!(rt)?;
    Ok(())
}

/// Prints its configuration and its script.
pub fn print_texts(rt: &(impl Print + AllocGlobal), setting: &Setting) -> Result<()> {
    let workload = workload(setting)?;
    println!(rt)?;
    print_lines(rt, "  ", workload.conf.as_slice())?;
    print_lines(rt, "  ", workload.script.as_slice())
}

/// Prints bytes of its capture: `FROM COUNT`.
pub fn print_hex(rt: &impl Print, setting: &Setting, text: &str) -> Result<()> {
    let (from, count) = text.split_once(' ').context("hex has FROM COUNT")?;
    let behind = workload(setting)?
        .capture
        .as_slice()
        .iter()
        .skip(from.parse()?);
    print!(rt; " ->")?;
    for byte in behind.take(count.parse()?) {
        print!(rt; " {byte:02x}")?;
    }
    println!(rt)?;
    Ok(())
}

/// Prints how many bytes its capture has, of which link and how many packets it is, and the time of the last.
pub fn print_packets(rt: &(impl Print + AllocGlobal), setting: &Setting) -> Result<()> {
    let bytes = workload(setting)?.capture.as_slice();
    if bytes.len() > MAX_CAPTURE_BYTES {
        bail!("a long capture");
    }
    let capture = read_capture(rt.alloc(), bytes)?;
    let (len, link, records) = (bytes.len(), capture.link, capture.records.as_slice());
    let last = records.last().context("no packet")?;
    println!(rt;
        " -> {len} bytes, {link:?}, {} packets, the last at {}",
        records.len(),
        last.time
    )?;
    Ok(())
}

fn workload(setting: &Setting) -> Result<&Workload> {
    setting.workload.as_ref().context("no run is generated")
}
