// The packets of a run, as the workers look at them.
ghost use Rattle.std.specs.Prelude.{◌≡◌};

use npf_pieces::{Seen, piece_of};
use npf_traffic::Packet;

/// Packets among which workers look for pieces at one time. It is a trait since a closure that
/// borrows a value whose type names a lifetime tells nothing to `join`.
pub(crate) trait Scan: Sync {
    ghost use Rattle.std.specs.Prelude.{◌<◌, List, All, length, slice_index_or};
    ghost use Rattle.npf_traffic.specs.Packet.{IsShortPacket};
    ghost use Rattle.npf_traffic.specs.declared.packet.Packet.{Packet};
    ghost use Rattle.npf_reass_whole.specs.Run.{IsSeenAs};

    /// The packets, in order.
    ghost packets: { Self → List Packet };

    /// What the packet of this place is for those who put fragments together.
    fn seen(&self, place: usize) -> Seen
        requires here { place < length (packets self.now) }
        requires short { All IsShortPacket (packets self.now) }
        ensures { (d : Packet) → IsSeenAs (slice_index_or (packets self.now) place d) result };
}

/// The packets of a run, lent.
#[derive(Clone, Copy)]
pub(crate) struct Lent<'p, 'a> {
    pub(crate) packets: &'p [Packet<'a>],
}

impl<'p, 'a> Scan for Lent<'p, 'a> {
    ghost packets = { λ lent. lent.packets.now };

    fn seen(&self, place: usize) -> Seen {
        piece_of(&self.packets[place])
    }
}
