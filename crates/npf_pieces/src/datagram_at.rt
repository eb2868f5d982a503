// Where a datagram stands among others, and the packet that becomes it.
ghost use Rattle.std.specs.Prelude.{◌≡◌, ◌<◌, All, length, sum_by};
ghost use Rattle.npf_pieces.specs.DatagramAt.{cut_at, with_datagrams};

use npf_traffic::{Packet, PacketBytes};
use npf_types::Link;

/// How many bytes a datagram has, and the place of the packet that becomes it.
#[derive(Clone, Copy)]
pub(crate) struct DatagramAt {
    pub(crate) place: usize,
    pub(crate) len: usize,
}

/// Puts the datagrams that stand in these bytes in place of their packets.
pub(crate) fn put_at<'a>(bytes: &'a mut [u8], extents: &[DatagramAt], packets: &mut [Packet<'a>])
    requires sized { sum_by (λ d. d.len) extents.now ≡ length bytes.old }
    requires here { All (λ d. d.place < length packets.old) extents.now }
    ensures { packets.new ≡ with_datagrams (cut_at extents.now bytes.old) packets.old }
{
    let mut rest = bytes;
    for extent in extents {
        let (own, more) = rest.split_at_mut(extent.len);
        let packet = &mut packets[extent.place];
        packet.link = Link::Raw;
        packet.held = None;
        packet.bytes = PacketBytes::of(own);
        rest = more;
    }
}
