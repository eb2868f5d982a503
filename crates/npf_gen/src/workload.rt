// The three texts of a run. Each line ends in a line feed, the last too. Draws count from 1: packet i takes three, from 3i - 2 on.
ghost use Rattle.std.specs.Prelude.{◌≡◌, ◌<◌, ◌*◌, ◌++◌, ◌^◌, IfOk, OnOk};
ghost use Rattle.npf_pcap.specs.Spelling.{capture_bytes, record_bytes};
ghost use Rattle.npf_gen.specs.Workload.{configuration_text, script_text, packet_count, generated_records, sent_at};

use crate::datagram::Datagram;
use crate::draw::Draws;
use npf_pcap::{append_record, write_capture};
use npf_types::{List, NoMemory, Text};
use std::alloc::Global;

const CONFIGURATION: &str =
    "table <t> type ipset\nmap ext0 dynamic 10.0.0.0/8 -> 203.0.113.1\ngroup \"ext\" on ext0 { pass stateful out final all; block in from <t> }\ngroup default { pass all }\n";

const SCRIPT: &str =
    "capture ext0 out \"g.pcap\"\nphase\npackets 10000\nphase\nexpire 3600\nphase\npackets rest\n";

const PACKET_COUNT: usize = 20_000;

// The bytes of a packet, and of its record in a capture.
const PACKET_LEN: usize = 28;

const RECORD_LEN: usize = 44;

const NANOSECONDS_BETWEEN: u64 = 1_000_000;

/// What a run takes: the text of a configuration, the text of a script, which names the capture `g.pcap`, and the bytes
/// of that capture.
#[derive(Debug, Drop)]
pub struct Workload {
    pub conf: Text,
    pub script: Text,
    pub capture: Text,
}

/// The run of a number: one for each, always the same. Only want of memory refuses it.
pub fn generate(alloc: Global, number: u64) -> Result<Workload, NoMemory>
    ensures conf { IfOk result (λ workload. workload.conf ≡ configuration_text) }
    ensures script { IfOk result (λ workload. workload.script ≡ script_text) }
    ensures capture { IfOk result (λ workload. workload.capture ≡ capture_bytes (generated_records number packet_count)) }
{
    let conf = Vec::from_slice(alloc, CONFIGURATION.as_bytes())?;
    let script = Vec::from_slice(alloc, SCRIPT.as_bytes())?;
    let capture = capture_of(alloc, number)?;
    Ok(Workload {
        conf: List::of_vec(conf),
        script: List::of_vec(script),
        capture: List::of_vec(capture),
    })
}

// The header of a capture is that of an empty one; the records are written behind it, each from its datagram.
fn capture_of(alloc: Global, number: u64) -> Result<Vec<u8>, NoMemory>
    ensures { IfOk result (λ capture. capture.items ≡ capture_bytes (generated_records number packet_count)) }
{
    let mut capture = write_capture(alloc, &[])?;
    capture.reserve_exact(PACKET_COUNT * RECORD_LEN)?;
    let mut draws = Draws { state: number };
    for i in 0..PACKET_COUNT as u64 {
        let host = draws.draw();
        let port = draws.draw();
        let server = draws.draw();
        let datagram = Datagram::of_draws(host, port, server);
        write_record(
            &mut capture,
            alloc,
            (i + 1) * NANOSECONDS_BETWEEN,
            &datagram,
        )?;
    }
    Ok(capture)
}

fn write_record(
    out: &mut Vec<u8>,
    alloc: Global,
    time: u64,
    datagram: &Datagram,
) -> Result<(), NoMemory>
    requires { time < 2 ^ 32 * 10 ^ 9 }
    ensures { OnOk result (out.new.items ≡ out.old.items ++ record_bytes (sent_at time datagram.now)) }
{
    let mut bytes = Vec::with_capacity(alloc, PACKET_LEN)?;
    datagram.write(&mut bytes)?;
    append_record(out, time, bytes.as_slice())
}
