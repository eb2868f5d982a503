// The capture of the packets that passed, part by part.
ghost use Rattle.std.specs.Prelude.{◌≡◌, ◌≤◌, ◌+◌, ◌++◌, ◌-◌, List, All, length, take, drop, true, vec_len, vec_capacity};
ghost use Rattle.std.specs.List.{flat_map};
ghost use Rattle.npf_outside.specs.Parts.{GivesPart};
ghost use Rattle.npf_pcap.specs.declared.capture.Record.{Record};
ghost use Rattle.npf_pcap.specs.Spelling.{capture_bytes, record_bytes};
ghost use Rattle.npf_traffic.specs.declared.packet.Packet.{Packet as PacketType};
ghost use Rattle.npf_ctl_arrivals.specs.Within.{HasCaptureTime};
ghost use Rattle.npf_ctl_output.specs.Extents.{AreExtentsOf, EndsInPacket};
ghost use Rattle.npf_ctl_output.specs.Outputs.{AreOutputsOf};
ghost use Rattle.npf_ctl_output.specs.Passed.{passed_rest};
ghost use Rattle.npf_ctl_output.specs.Capture.{AreWritten, bytes_behind, records_from};

use crate::passed::PassedPackets;
use npf_engine::Outcome;
use npf_outside::{PART_ROOM, Parts};
use npf_packet::IpExtent;
use npf_pcap::{append_header, append_record};
use npf_runner::Packet;
use npf_types::limits::MAX_PACKET_BYTES;

/// A part ends with the first record that goes past so many bytes.
const PART_BYTES: usize = 65_536;

impl<'a> PassedPackets<'a> {
    /// None of it is given yet. Each packet must have an extent and an outcome, and the seconds of its time 32 bits.
    pub fn of(
        extents: &'a [IpExtent],
        outputs: &'a [Packet<'a>],
        outcomes: &'a [Outcome],
    ) -> PassedPackets<'a>
        requires extents { length extents.now ≡ length outputs.now }
        requires outcomes { length outcomes.now ≡ length outputs.now }
        requires ends { All EndsInPacket extents.now }
        requires timely { All HasCaptureTime outputs.now }
        ensures { (packets : List PacketType) → AreExtentsOf packets extents.now → AreOutputsOf packets outcomes.now outputs.now
            → (records : List Record) × AreWritten packets outputs.now outcomes.now records
            × (passed_rest result ≡ capture_bytes records) }
    {
        PassedPackets {
            extents,
            outputs,
            outcomes,
            begun: false,
            given: 0,
        }
    }
}

impl<'a> Parts for PassedPackets<'a> {
    ghost use Rattle.npf_ctl_output.specs.Passed.{passed_rest};

    ghost rest = { passed_rest };

    fn next(&mut self, part: &mut Vec<u8>) {
        if self.begun {
            self.given = append_records(
                self.extents,
                self.outputs,
                self.outcomes,
                self.given,
                part,
            );
            return;
        }
        self.begun = true;
        let Ok(()) = append_header(part) else {
            unreachable!()
        };
    }
}

// Appends the records of the packets that passed from this place on, as many as a part has, and answers the place behind them. It takes
// no memory.
fn append_records(
    extents: &[IpExtent],
    outputs: &[Packet<'_>],
    outcomes: &[Outcome],
    from: usize,
    part: &mut Vec<u8>,
) -> usize
    requires extents { length extents.now ≡ length outputs.now }
    requires outcomes { length outcomes.now ≡ length outputs.now }
    requires ends { All EndsInPacket extents.now }
    requires timely { All HasCaptureTime outputs.now }
    requires room { vec_len part.old + PART_ROOM ≤ vec_capacity part.old }
    ensures gives { GivesPart (bytes_behind extents.now outputs.now outcomes.now from)
        (bytes_behind extents.now outputs.now outcomes.now result) part.old.items part.new.items }
    ensures room { vec_capacity part.old ≤ vec_capacity part.new }
{
    let full = part.len() + PART_BYTES;
    let mut place = from;
    while place < outputs.len() && part.len() < full {
        append_passed(part, extents[place], &outputs[place], &outcomes[place]);
        place += 1;
    }
    place
}

// Appends the record of a packet that passed, and nothing of another. It takes no memory.
fn append_passed(part: &mut Vec<u8>, extent: IpExtent, output: &Packet<'_>, outcome: &Outcome)
    requires ends { EndsInPacket extent }
    requires timely { HasCaptureTime output.now }
    requires room { vec_len part.old + 16 + MAX_PACKET_BYTES ≤ vec_capacity part.old }
    ensures items { part.new.items ≡ part.old.items ++ flat_map record_bytes (records_from extent output.now outcome.now) }
    ensures room { vec_capacity part.old ≤ vec_capacity part.new }
{
    if !outcome.passes() {
        return;
    }
    let sent = ip_packet(output.bytes.as_slice(), extent);
    let Ok(()) = append_record(part, output.time, sent) else {
        unreachable!()
    };
}

// The bytes of this extent, as far as there are so many.
fn ip_packet(bytes: &[u8], extent: IpExtent) -> &[u8]
    ensures { result.now ≡ take (extent.end - extent.at) (drop extent.at bytes.now) }
{
    let end = bytes.len().min(extent.end as usize);
    let at = end.min(extent.at as usize);
    &bytes[at..end]
}
