// What a segment takes up in its sender's sequence, and what it offers to its receiver.
ghost use Rattle.std.specs.Prelude.{◌≡◌, ◌≤◌, ◌*◌, ◌^◌};
ghost use Rattle.npf_tcp.specs.Extent.{segment_end, window};

use crate::flag::{has_fin, has_syn};
use npf_types::Segment;

/// The greatest shift of a window (RFC 7323 section 2.3).
const GREATEST_SCALE: u8 = 14;

/// The sequence number after the segment: SYN and FIN count as a byte each.
#[tactic(auto, unfolding(crate::specs::Extent::segment_end))]
pub fn segment_end(seg: &Segment) -> u32
    ensures { result ≡ segment_end seg.now }
{
    let marks = u32::from(has_syn(seg.flags)) + u32::from(has_fin(seg.flags));
    seg.seq.wrapping_add(seg.len).wrapping_add(marks)
}

/// The window in bytes, at least 1, where the sender and the receiver have these scales.
#[tactic(auto, unfolding(crate::specs::Extent::window))]
pub fn window(seg: &Segment, sender: Option<u8>, receiver: Option<u8>) -> u32
    ensures { result ≡ window seg.now sender receiver }
{
    match (sender, receiver) {
        (Some(scale), Some(_)) if !has_syn(seg.flags) => {
            shifted(seg.win, scale.min(GREATEST_SCALE)).max(1)
        }
        _ => u32::from(seg.win).max(1),
    }
}

fn shifted(window: u16, scale: u8) -> u32
    requires { scale ≤ 14 }
    ensures { result ≡ window * 2 ^ scale }
{
    u32::from(window) << scale
}
