// A later segment.
//
// A side that is seen never loses greatest window. One that isn't seen but has a window might, at its first segment; no state that comes
// from an opening has such a side (`laws`).
ghost use Rattle.std.specs.Prelude.{◌≡◌, Option};
ghost use Rattle.npf_tcp.specs.Segment.{sender_of, receiver_of, state_after, sender_after, receiver_after, side_after_sending, side_after_ack, sender_scale, receiver_scale, is_without_scales, segment_step};

use crate::cell::cell;
use crate::class::SegmentClass;
use crate::extent::{segment_end, window};
use crate::flag::{has_ack, has_syn};
use crate::sequence::later_of;
use crate::state::{Known, TcpPhase, TcpSide, TcpState};
use crate::window::is_in_bounds;
use npf_types::{Segment, Way};

/// The state after a segment that goes this way, and whether it is accepted, at any state and segment. A refused
/// segment changes nothing. A segment of the way `Port` counts as `Forward`.
#[tactic(auto, unfolding(crate::specs::Segment::segment_step))]
pub fn step_tcp(state: &TcpState, way: Way, seg: &Segment) -> (TcpState, bool)
    ensures { result ≡ segment_step state.now way seg.now }
{
    let (sender, receiver) = (sender_of(state, way), receiver_of(state, way));
    match cell(state.phase, way, SegmentClass::of(seg.flags)) {
        Some(phase) if is_in_bounds(state.strict, sender, receiver, seg) => {
            (state_after(phase, state, way, seg), true)
        }
        _ => (*state, false),
    }
}

fn sender_of(state: &TcpState, way: Way) -> &TcpSide
    ensures { result.now ≡ sender_of state.now way }
{
    match way {
        Way::Forward | Way::Port => &state.forward,
        Way::Backward => &state.backward,
    }
}

fn receiver_of(state: &TcpState, way: Way) -> &TcpSide
    ensures { result.now ≡ receiver_of state.now way }
{
    match way {
        Way::Forward | Way::Port => &state.backward,
        Way::Backward => &state.forward,
    }
}

/// The state after a segment that is accepted and leads to this phase.
#[tactic(auto, unfolding(crate::specs::Segment::state_after))]
fn state_after(phase: TcpPhase, state: &TcpState, way: Way, seg: &Segment) -> TcpState
    ensures { result ≡ state_after phase state.now way seg.now }
{
    let (sender, receiver) = (sender_of(state, way), receiver_of(state, way));
    let sent = sender_after(sender, receiver, seg);
    let acked = receiver_after(sender, receiver, seg);
    match way {
        Way::Forward | Way::Port => TcpState {
            phase,
            forward: sent,
            backward: acked,
            ..*state
        },
        Way::Backward => TcpState {
            phase,
            forward: acked,
            backward: sent,
            ..*state
        },
    }
}

#[tactic(auto, unfolding(crate::specs::Segment::sender_after))]
fn sender_after(sender: &TcpSide, receiver: &TcpSide, seg: &Segment) -> TcpSide
    ensures { result ≡ sender_after sender.now receiver.now seg.now }
{
    let window = window(seg, sender.scale, receiver.scale);
    TcpSide {
        scale: sender_scale(sender, receiver, seg),
        ..side_after_sending(sender, segment_end(seg), window)
    }
}

#[tactic(auto, unfolding(crate::specs::Segment::receiver_after))]
fn receiver_after(sender: &TcpSide, receiver: &TcpSide, seg: &Segment) -> TcpSide
    ensures { result ≡ receiver_after sender.now receiver.now seg.now }
{
    let scaled = TcpSide {
        scale: receiver_scale(receiver, seg),
        ..*receiver
    };
    if has_ack(seg.flags) {
        let window = window(seg, sender.scale, receiver.scale);
        side_after_ack(&scaled, seg.ack, window)
    } else {
        scaled
    }
}

/// The sender's numbers after a segment that ends at `end` and offers `window`.
#[tactic(auto, unfolding(crate::specs::Segment::side_after_sending))]
fn side_after_sending(side: &TcpSide, end: u32, window: u32) -> TcpSide
    ensures { result ≡ side_after_sending side.now end window }
{
    match side.known {
        Known::Seen => TcpSide {
            end: later_of(side.end, end),
            maxend: later_of(side.maxend, end),
            maxwin: side.maxwin.max(window),
            ..*side
        },
        Known::Expected => TcpSide {
            known: Known::Seen,
            end,
            maxend: later_of(side.maxend, end),
            maxwin: window,
            scale: side.scale,
        },
        Known::Nothing => TcpSide {
            known: Known::Seen,
            end,
            maxend: end,
            maxwin: window,
            scale: side.scale,
        },
    }
}

/// The receiver's numbers after the acknowledgment of all before `ack` with `window`.
#[tactic(auto, unfolding(crate::specs::Segment::side_after_ack))]
fn side_after_ack(side: &TcpSide, ack: u32, window: u32) -> TcpSide
    ensures { result ≡ side_after_ack side.now ack window }
{
    let reach = ack.wrapping_add(window);
    match side.known {
        Known::Nothing => TcpSide {
            known: Known::Expected,
            end: ack,
            maxend: reach,
            maxwin: 0,
            scale: side.scale,
        },
        Known::Expected | Known::Seen => TcpSide {
            maxend: later_of(side.maxend, reach),
            ..*side
        },
    }
}

#[tactic(auto, unfolding(crate::specs::Segment::sender_scale))]
fn sender_scale(sender: &TcpSide, receiver: &TcpSide, seg: &Segment) -> Option<u8>
    ensures { result ≡ sender_scale sender.now receiver.now seg.now }
{
    if !has_syn(seg.flags) {
        return sender.scale;
    }
    if is_without_scales(receiver, seg) {
        return None;
    }
    seg.scale
}

#[tactic(auto, unfolding(crate::specs::Segment::receiver_scale))]
fn receiver_scale(receiver: &TcpSide, seg: &Segment) -> Option<u8>
    ensures { result ≡ receiver_scale receiver.now seg.now }
{
    if has_syn(seg.flags) && is_without_scales(receiver, seg) {
        return None;
    }
    receiver.scale
}

/// Whether a SYN to this receiver settles that neither side scales its windows.
fn is_without_scales(receiver: &TcpSide, seg: &Segment) -> bool
    ensures { result ≡ is_without_scales receiver.now seg.now }
{
    receiver.known == Known::Seen && (seg.scale.is_none() || receiver.scale.is_none())
}
