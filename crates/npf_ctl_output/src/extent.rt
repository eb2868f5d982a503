// Where the records have their IP packets.
ghost use Rattle.std.specs.Prelude.{IfOk, All};
ghost use Rattle.npf_traffic.specs.Packet.{IsShortPacket};
ghost use Rattle.npf_ctl_output.specs.Extents.{AreExtentsOf, IsExtentOf, EndsInPacket};

use npf_packet::{IpExtent, ip_extent};
use npf_runner::Packet;
use npf_types::NoMemory;
use std::alloc::Global;

/// Where each packet has its IP packet, if it is one. Each must have at most `MAX_PACKET_BYTES`.
pub fn ip_extents(alloc: Global, packets: &[Packet<'_>]) -> Result<Vec<IpExtent>, NoMemory>
    requires { All IsShortPacket packets.now }
    ensures extents { IfOk result (λ extents. AreExtentsOf packets.now extents.items) }
    ensures ends { IfOk result (λ extents. All EndsInPacket extents.items) }
{
    let mut extents = Vec::with_capacity(alloc, packets.len())?;
    for packet in packets {
        extents.push_reserved(extent_of(packet));
    }
    Ok(extents)
}

fn extent_of(packet: &Packet<'_>) -> IpExtent
    requires { IsShortPacket packet.now }
    ensures extent { IsExtentOf packet.now result }
    ensures ends { EndsInPacket result }
{
    ip_extent(packet.link, packet.bytes.as_slice())
}
