// Where the numbers of a segment may lie. What isn't known of a side bounds nothing.
ghost use Rattle.std.specs.Prelude.{◌≡◌};
ghost use Rattle.npf_tcp.specs.Window.{is_sent_in_bounds, is_ack_in_bounds, is_in_bounds_by, is_reset_in_bounds, is_in_bounds};

use crate::class::SegmentClass;
use crate::extent::segment_end;
use crate::flag::has_ack;
use crate::sequence::is_at_or_before;
use crate::state::{Known, TcpSide};
use npf_types::Segment;

/// How far back an acknowledgment may lie, in bytes.
const OLDEST_ACK: u32 = 66_000;

/// Whether the segment's numbers lie where those of a segment from `sender` to `receiver` may, in a connection that is
/// `strict` about resets or isn't.
#[tactic(auto, unfolding(crate::specs::Window::is_in_bounds))]
pub fn is_in_bounds(strict: bool, sender: &TcpSide, receiver: &TcpSide, seg: &Segment) -> bool
    ensures { result ≡ is_in_bounds strict sender.now receiver.now seg.now }
{
    is_in_bounds_by(sender, receiver, seg) && is_reset_in_bounds(strict, sender, seg)
}

/// Whether they do as far as either side is known.
fn is_in_bounds_by(sender: &TcpSide, receiver: &TcpSide, seg: &Segment) -> bool
    ensures { result ≡ is_in_bounds_by sender.now.known receiver.now.known sender.now receiver.now seg.now }
{
    match (sender.known, receiver.known) {
        (Known::Seen, Known::Seen) => {
            is_sent_in_bounds(sender, receiver, seg) && is_ack_in_bounds(receiver, seg)
        }
        (_, Known::Seen) => is_ack_in_bounds(receiver, seg),
        _ => true,
    }
}

#[tactic(auto, unfolding(crate::specs::Window::is_sent_in_bounds))]
fn is_sent_in_bounds(sender: &TcpSide, receiver: &TcpSide, seg: &Segment) -> bool
    ensures { result ≡ is_sent_in_bounds sender.now receiver.now seg.now }
{
    let oldest = sender.end.wrapping_sub(receiver.maxwin);
    is_at_or_before(segment_end(seg), sender.maxend) && is_at_or_before(oldest, seg.seq)
}

#[tactic(auto, unfolding(crate::specs::Window::is_ack_in_bounds))]
fn is_ack_in_bounds(receiver: &TcpSide, seg: &Segment) -> bool
    ensures { result ≡ is_ack_in_bounds receiver.now seg.now }
{
    let oldest = receiver.end.wrapping_sub(OLDEST_ACK);
    !has_ack(seg.flags)
        || (is_at_or_before(seg.ack, receiver.end) && is_at_or_before(oldest, seg.ack))
}

/// Whether the segment, if it is a reset to a strict connection, stands where what its sender sent ends, or one byte before.
#[tactic(auto, unfolding(crate::specs::Window::is_reset_in_bounds))]
fn is_reset_in_bounds(strict: bool, sender: &TcpSide, seg: &Segment) -> bool
    ensures { result ≡ is_reset_in_bounds strict sender.now seg.now }
{
    let is_bound = strict
        && SegmentClass::of(seg.flags) == SegmentClass::Rst
        && sender.known != Known::Nothing;
    !is_bound || sender.end.wrapping_sub(seg.seq) <= 1
}
