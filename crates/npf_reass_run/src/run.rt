// The fragments of a run, put together by workers.
ghost use Rattle.std.specs.Prelude.{◌≡◌, ◌≤◌, None, All, IfOk};
ghost use Rattle.npf_traffic.specs.Packet.{IsShortPacket};
ghost use Rattle.npf_reass_whole.specs.Whole.{Whole};

use crate::gather::{gather, has_fragment};
use crate::share::decide_all;
use npf_pieces::DatagramBytes;
use npf_reass_whole::{no_fragments_stay, put_together};
use npf_traffic::Packet;
use npf_types::NoMemory;
use std::alloc::Global;
use std::sync::Wait;
use std::thread::Threads;

/// In how many classes pieces are gathered.
const CLASSES: u32 = 1024;

/// The packets of a run where its fragments are put together, by so many workers. Datagrams stand in the keeper, in place of what
/// was there. Without fragments the body takes no memory and starts no thread, which no clause says.
pub fn reassemble<'a, R: Threads + Wait + Sync>(
    rt: &R,
    alloc: Global,
    packets: Vec<Packet<'a>>,
    workers: u32,
    keeper: &'a mut DatagramBytes,
) -> Result<Vec<Packet<'a>>, NoMemory>
    requires workers { (1 ≤ workers) × (workers ≤ 64) }
    requires short { All IsShortPacket packets.items }
    ensures whole { IfOk result (λ whole. Whole packets.entry.items whole.items) }
    ensures short { IfOk result (λ whole. All IsShortPacket whole.items) }
{
    no_fragments_stay();
    if !has_fragment(packets.as_slice()) {
        return Ok(packets);
    }
    let mut classes = gather(rt, alloc, packets.as_slice(), CLASSES, workers)?;
    decide_all(rt, alloc, classes.as_mut_slice(), workers)?;
    put_together(alloc, packets, classes.as_slice(), keeper)
}
