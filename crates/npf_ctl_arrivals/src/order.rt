// Packets by time.
ghost use Rattle.std.specs.Prelude.{◌↔◌, IsTrue, IfOk};
ghost use Rattle.std.specs.List.Sorted.{IsSortedByKey};
ghost use Rattle.std.specs.Ordering.{nat_cmp};
ghost use Rattle.npf_ctl_arrivals.specs.Arrivals.{AreByTime};

use npf_traffic::Packet;
use npf_types::NoMemory;

/// The packets by time, and those of one time in their order. Those that stand so already are left as they are, with no memory taken.
pub(crate) fn by_time<'a>(mut packets: Vec<Packet<'a>>) -> Result<Vec<Packet<'a>>, NoMemory>
    ensures { IfOk result (λ sorted. AreByTime packets.entry.items sorted.items) }
{
    if are_in_order(packets.as_slice()) {
        return Ok(packets);
    }
    match packets.sort_by_key(|packet| packet.time) {
        Ok(()) => Ok(packets),
        Err(_) => Err(NoMemory),
    }
}

/// Whether no packet is earlier than the one before it.
fn are_in_order(packets: &[Packet<'_>]) -> bool
    ensures { IsTrue result ↔ IsSortedByKey (λ packet. packet.time) nat_cmp packets.now }
{
    for next in 1..packets.len() {
        if packets[next].time < packets[next - 1].time {
            return false;
        }
    }
    true
}
