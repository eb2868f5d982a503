// Packets as rows have them: by their times alone.
use anyhow::Result;
use npf_traffic::{Packet, PacketBytes};
use npf_types::{Dir, IfId, Link};
use std::alloc::Global;

/// Packets of these times, in nanoseconds with a comma between them, or none for `-`.
pub fn packets_of<'a>(alloc: Global, times: &str) -> Result<Vec<Packet<'a>>> {
    let mut packets = Vec::new(alloc);
    if times == "-" {
        return Ok(packets);
    }
    for time in times.split(',') {
        packets.push(Packet {
            time: time.parse()?,
            link: Link::Raw,
            ifid: IfId(0),
            dir: Dir::In,
            held: None,
            bytes: PacketBytes::of(Vec::new(alloc).leak()),
        })?;
    }
    Ok(packets)
}
