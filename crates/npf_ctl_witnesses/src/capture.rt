// The capture of the witnesses that pass on one interface in one direction.
ghost use Rattle.std.specs.Prelude.{◌≡◌, ◌≤◌, All, IfOk, length};
ghost use Rattle.npf_pcap.specs.Capture.{IsCapture};
ghost use Rattle.npf_pcap.specs.Spelling.{FitsCapture, capture_bytes};
ghost use Rattle.npf_ctl_witnesses.specs.WitnessFiles.{records_of, witness_record};

use crate::alike::pass_alike;
use crate::packet::witness_bytes;
use npf_model::Iface;
use npf_pcap::{Record, write_capture};
use npf_products::CellPacket;
use npf_types::{Link, List, NoMemory};
use std::alloc::Global;

const NANOSECONDS_OF_SECOND: u64 = 1_000_000_000;

/// The bytes of the capture of those that pass as `one` does.
pub(crate) fn capture_of(
    alloc: Global,
    ifaces: &[Iface],
    packets: &[CellPacket],
    one: &CellPacket,
) -> Result<Vec<u8>, NoMemory>
    requires { length packets.now ≤ 256 }
    ensures bytes { IfOk result (λ capture. capture.items ≡ capture_bytes (records_of ifaces.now packets.now one.now)) }
    ensures reads { IfOk result (λ capture. IsCapture capture.items Link.Raw (records_of ifaces.now packets.now one.now)) }
{
    let records = records_of(alloc, ifaces, packets, one)?;
    write_capture(alloc, records.as_slice())
}

// The records of those that pass as `one` does, in order.
fn records_of(
    alloc: Global,
    ifaces: &[Iface],
    packets: &[CellPacket],
    one: &CellPacket,
) -> Result<Vec<Record>, NoMemory>
    requires { length packets.now ≤ 256 }
    ensures records { IfOk result (λ records. records.items ≡ records_of ifaces.now packets.now one.now) }
    ensures fit { IfOk result (λ records. All FitsCapture records.items) }
{
    let mut records = Vec::new(alloc);
    for (place, packet) in packets.iter().enumerate() {
        if pass_alike(ifaces, one, packet) {
            records.push(witness_record(alloc, place + 1, packet)?)?;
        }
    }
    Ok(records)
}

// The record of the witness of this number, which is sent at as many seconds.
fn witness_record(alloc: Global, number: usize, packet: &CellPacket) -> Result<Record, NoMemory>
    requires { number ≤ 256 }
    ensures record { IfOk result (λ sent. sent ≡ witness_record (number, packet.now)) }
    ensures fits { IfOk result FitsCapture }
{
    let bytes = witness_bytes(alloc, &packet.facts)?;
    Ok(Record {
        time: number as u64 * NANOSECONDS_OF_SECOND,
        bytes: List::of_vec(bytes),
    })
}
