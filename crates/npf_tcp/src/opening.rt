// A connection's first segment.
//
// A side of which nothing is known yet has 0 as its numbers and no scale: no rule reads them before a segment or an acknowledgment sets them. A
// scale option without SYN brings no scale (RFC 7323 section 2.2).
ghost use Rattle.std.specs.Prelude.{◌≡◌};
ghost use Rattle.npf_tcp.specs.Opening.{opening_state, opening_phase, opening_forward, opening_backward};

use crate::class::SegmentClass;
use crate::extent::{segment_end, window};
use crate::flag::{has_ack, has_syn};
use crate::state::{Known, TcpPhase, TcpSide, TcpState};
use npf_types::Segment;

/// The state that a connection's first segment opens, at any segment: its sender is the forward side. SYN opens
/// SYN_SENT, RST opens CLOSED, FIN opens FIN_SENT, and all else ESTABLISHED, as a connection that was under way
/// before the filter saw it. Where it is `strict`, it takes resets in order alone (`TcpState`).
#[tactic(auto, unfolding(crate::specs::Opening::opening_state))]
pub fn open_tcp(seg: &Segment, strict: bool) -> TcpState
    ensures { result ≡ opening_state seg.now strict }
{
    TcpState {
        phase: opening_phase(SegmentClass::of(seg.flags)),
        forward: opening_forward(seg),
        backward: opening_backward(seg),
        strict,
    }
}

fn opening_phase(class: SegmentClass) -> TcpPhase
    ensures { result ≡ opening_phase class }
{
    match class {
        SegmentClass::Syn => TcpPhase::SynSent,
        SegmentClass::Rst => TcpPhase::Closed,
        SegmentClass::Fin => TcpPhase::FinSent,
        SegmentClass::SynAck | SegmentClass::Ack | SegmentClass::Invalid => TcpPhase::Established,
    }
}

#[tactic(auto, unfolding(crate::specs::Opening::opening_forward))]
fn opening_forward(seg: &Segment) -> TcpSide
    ensures { result ≡ opening_forward seg.now }
{
    let end = segment_end(seg);
    TcpSide {
        known: Known::Seen,
        end,
        maxend: end,
        maxwin: window(seg, None, None),
        scale: if has_syn(seg.flags) { seg.scale } else { None },
    }
}

#[tactic(auto, unfolding(crate::specs::Opening::opening_backward))]
fn opening_backward(seg: &Segment) -> TcpSide
    ensures { result ≡ opening_backward seg.now }
{
    if has_ack(seg.flags) {
        TcpSide {
            known: Known::Expected,
            end: seg.ack,
            maxend: seg.ack.wrapping_add(window(seg, None, None)),
            maxwin: 0,
            scale: None,
        }
    } else {
        TcpSide {
            known: Known::Nothing,
            end: 0,
            maxend: 0,
            maxwin: 0,
            scale: None,
        }
    }
}
