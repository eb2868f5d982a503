// A capture that was read, and its packets where they stand in it.
ghost use Rattle.std.specs.Prelude.{◌≡◌, ◌≢◌, ◌≤◌, ◌+◌, ◌++◌, Err, Ok, IfOk, IfErr, All, length, map, vec_len, vec_capacity};
ghost use Rattle.npf_pcap.specs.Extent.{IsShort, IsTimely, StandApart, records_at};
ghost use Rattle.npf_ctl_arrivals.specs.Arrivals.{ReadsCapture, packet_of};
ghost use Rattle.npf_ctl_arrivals.specs.Traces.{IsApart, packets_of_trace};

use npf_ctl_messages::CommandFault;
use npf_pcap::{CaptureFault, Extent, Extents, read_extents};
use npf_traffic::{Packet, PacketBytes};
use npf_types::limits::MAX_CAPTURE_BYTES;
use npf_types::{Dir, IfId, Link, List};
use std::alloc::Global;
use std::mem::replace;

/// Where a capture was taken: its link, and the interface that its packets crossed, this way.
#[derive(Clone, Copy)]
pub(crate) struct Tap {
    pub(crate) link: Link,
    pub(crate) ifid: IfId,
    pub(crate) dir: Dir,
}

/// A capture's bytes, where its packets are in them, and where it was taken.
#[derive(Drop)]
pub(crate) struct Trace {
    pub(crate) bytes: Vec<u8>,
    pub(crate) extents: List<Extent>,
    pub(crate) tap: Tap,
}

/// Puts the trace's packets behind those before. It lets go where they are.
pub(crate) fn append_packets<'a>(alloc: Global, trace: &'a mut Trace, packets: &mut Vec<Packet<'a>>)
    requires apart { IsApart trace.old }
    requires room { vec_len packets.old + length trace.old.extents ≤ vec_capacity packets.old }
    ensures packets { packets.new.items ≡ packets.old.items ++ packets_of_trace trace.old }
    ensures capacity { vec_capacity packets.new ≡ vec_capacity packets.old }
{
    let extents = replace(&mut trace.extents, List::of_vec(Vec::new(alloc)));
    let tap = trace.tap;
    cut(trace.bytes.as_mut_slice(), extents.as_slice(), tap, packets);
}

// Puts the packets that these bytes have at these extents behind those before.
fn cut<'a>(bytes: &'a mut [u8], extents: &[Extent], tap: Tap, packets: &mut Vec<Packet<'a>>)
    requires apart { StandApart 0 extents.now (length bytes.old) }
    requires room { vec_len packets.old + length extents.now ≤ vec_capacity packets.old }
    ensures packets { packets.new.items ≡ packets.old.items ++ map (packet_of tap.link tap.ifid tap.dir) (records_at bytes.old extents.now) }
    ensures capacity { vec_capacity packets.new ≡ vec_capacity packets.old }
{
    let mut rest = bytes;
    let mut at = 0;
    for extent in extents {
        let behind = rest.split_at_mut(extent.at as usize - at).1;
        let (own, more) = behind.split_at_mut(extent.len as usize);
        packets.push_reserved(Packet {
            time: extent.time,
            link: tap.link,
            ifid: tap.ifid,
            dir: tap.dir,
            held: None,
            bytes: PacketBytes::of(own),
        });
        rest = more;
        at = extent.at as usize + extent.len as usize;
    }
}

/// Reads the capture whose bytes this file has, and tells where its packets are. A fault names the file.
pub(crate) fn read_named(alloc: Global, file: &str, bytes: &[u8]) -> Result<Extents, CommandFault>
    requires { length bytes.now ≤ MAX_CAPTURE_BYTES }
    ensures read { IfOk result (λ capture. ReadsCapture file.now bytes.now (Ok (capture.link, records_at bytes.now capture.extents))) }
    ensures apart { IfOk result (λ capture. StandApart 0 capture.extents (length bytes.now)) }
    ensures short { IfOk result (λ capture. All IsShort capture.extents) }
    ensures timely { IfOk result (λ capture. All IsTimely capture.extents) }
    ensures refused { IfErr result (λ fault. fault ≢ CommandFault.NoMemory → ReadsCapture file.now bytes.now (Err fault)) }
{
    match read_extents(alloc, bytes) {
        Ok(capture) => Ok(capture),
        Err(fault) => Err(told(alloc, file, fault)),
    }
}

fn told(alloc: Global, file: &str, fault: CaptureFault) -> CommandFault
    ensures other { result ≢ CommandFault.NoMemory → fault ≢ CaptureFault.NoMemory }
    ensures told { result ≢ CommandFault.NoMemory → result ≡ CommandFault.Capture file.now fault }
{
    if fault == CaptureFault::NoMemory {
        return CommandFault::NoMemory;
    }
    match Vec::from_slice(alloc, file.as_bytes()) {
        Ok(name) => CommandFault::Capture {
            file: List::of_vec(name),
            fault,
        },
        Err(_) => CommandFault::NoMemory,
    }
}
