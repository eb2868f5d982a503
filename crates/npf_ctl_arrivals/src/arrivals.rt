// Captures gathered one after another.
//
// Each is gathered whole, with its bytes and the places of its packets, so that one that is refused leaves what was gathered as it was.
// Packets are cut once all captures are read, into a list that is made in its size.
ghost use Rattle.std.specs.Prelude.{◌≡◌, ◌≢◌, ◌≤◌, ℕ, All, length, Ok, Err, IfOk, IfErr, OnOk, OnErr};
ghost use Rattle.npf_traffic.specs.Packet.{IsShortPacket};
ghost use Rattle.npf_ctl_arrivals.specs.Arrivals.{AreByTime, GathersCapture, none_gathered};
ghost use Rattle.npf_ctl_arrivals.specs.Traces.{IsApart, StandApart-prop, packets_in_traces};
ghost use Rattle.npf_ctl_arrivals.specs.Within.{CrossesOneOf, HasCaptureTime, IsInterfaceNumber, IsWithinRun};

use crate::limit::within_run;
use crate::order::by_time;
use crate::trace::{Tap, Trace, append_packets, read_named};
use npf_ctl_messages::CommandFault;
use npf_pcap::Extents;
use npf_traffic::Packet;
use npf_types::limits::{MAX_CAPTURE_BYTES, MAX_PACKETS};
use npf_types::{Dir, IfId, NoMemory};
use std::alloc::Global;

/// The captures that were read so far: how many bytes and packets they have, and the captures.
#[derive(Drop)]
pub struct Arrivals {
    bytes: u64,
    count: u64,
    traces: Vec<Trace>,
    pub ghost counted: { count ≡ length (packets_in_traces traces.items) },
    pub ghost apart: { All IsApart traces.items } by { Prim.hlevel StandApart-prop },
}

/// Where a run's captures stand while its packets do.
#[derive(Drop)]
pub struct Captures {
    traces: Vec<Trace>,
}

impl Captures {
    /// None yet.
    pub fn new(alloc: Global) -> Captures {
        Captures {
            traces: Vec::new(alloc),
        }
    }

    // Their packets, one capture's after another's, of which there are so many.
    fn packets(&mut self, alloc: Global, count: usize) -> Result<Vec<Packet<'_>>, NoMemory>
        requires apart { All IsApart self.old.traces.items }
        requires count { count ≡ length (packets_in_traces self.old.traces.items) }
        ensures { IfOk result (λ packets. packets.items ≡ packets_in_traces self.old.traces.items) }
    {
        let mut packets = Vec::with_capacity(alloc, count)?;
        for trace in self.traces.as_mut_slice() {
            append_packets(alloc, trace, &mut packets);
        }
        Ok(packets)
    }
}

impl Arrivals {
    ghost use Rattle.npf_ctl_arrivals.specs.Gathering.{gathered_so_far};

    /// No capture is read yet.
    pub fn new(alloc: Global) -> Arrivals
        ensures empty { gathered_so_far result ≡ none_gathered }
        ensures within { IsWithinRun (gathered_so_far result) }
    {
        Arrivals {
            bytes: 0,
            count: 0,
            traces: Vec::new(alloc),
        }
    }

    /// Gathers the packets of a capture behind those before. The file has these bytes, at most `MAX_CAPTURE_BYTES`, and the packets crossed
    /// the interface of this number in this direction. Refused, with nothing gathered, for the first test that the bytes fail, or else
    /// where all captures have more bytes than `MAX_BYTES_OF_CAPTURES` or more packets than `MAX_PACKETS`, or for want of memory.
    pub fn add(
        &mut self,
        alloc: Global,
        file: &str,
        ifid: IfId,
        dir: Dir,
        bytes: Vec<u8>,
    ) -> Result<(), CommandFault>
        requires short { length bytes.items ≤ MAX_CAPTURE_BYTES }
        requires within { IsWithinRun (gathered_so_far self.old) }
        ensures gathers { OnOk result (GathersCapture (gathered_so_far self.old) file.now ifid dir bytes.items (Ok (gathered_so_far self.new))) }
        ensures refused { IfErr result (λ fault. fault ≢ CommandFault.NoMemory → GathersCapture (gathered_so_far self.old) file.now ifid dir bytes.items (Err fault)) }
        ensures kept { OnErr result (gathered_so_far self.new ≡ gathered_so_far self.old) }
        ensures within { IsWithinRun (gathered_so_far self.new) }
        ensures crosses { (count : ℕ) → All (CrossesOneOf count) (gathered_so_far self.old).packets → IsInterfaceNumber count ifid → All (CrossesOneOf count) (gathered_so_far self.new).packets }
    {
        let Extents { link, extents } = read_named(alloc, file, bytes.as_slice())?;
        let read = self.bytes + bytes.len() as u64;
        let count = self.count + extents.as_slice().len() as u64;
        within_run(read, count)?;
        self.traces.push(Trace {
            bytes,
            extents,
            tap: Tap { link, ifid, dir },
        })?;
        self.bytes = read;
        self.count = count;
        Ok(())
    }

    /// The packets by time, and those of one time as they were gathered. They may be played and written. They stand in the bytes of their
    /// captures, which are put where the caller names, in place of what was there.
    pub fn by_time<'a>(
        self,
        alloc: Global,
        captures: &'a mut Captures,
    ) -> Result<Vec<Packet<'a>>, NoMemory>
        requires { IsWithinRun (gathered_so_far self) }
        ensures sorted { IfOk result (λ packets. AreByTime (gathered_so_far self).packets packets.items) }
        ensures count { IfOk result (λ packets. length packets.items ≤ MAX_PACKETS) }
        ensures short { IfOk result (λ packets. All IsShortPacket packets.items) }
        ensures timed { IfOk result (λ packets. All HasCaptureTime packets.items) }
        ensures crosses { (count : ℕ) → All (CrossesOneOf count) (gathered_so_far self).packets → IfOk result (λ packets. All (CrossesOneOf count) packets.items) }
    {
        let Arrivals {
            bytes: _,
            count,
            traces,
        } = self;
        captures.traces = traces;
        by_time(captures.packets(alloc, count as usize)?)
    }
}
