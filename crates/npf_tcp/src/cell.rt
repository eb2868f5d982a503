// The table of phases: a row for each phase, by the class of a segment and the way that it goes.
ghost use Rattle.std.specs.Prelude.{◌≡◌};
ghost use Rattle.npf_tcp.specs.Cell.{row, cell};

use crate::class::SegmentClass;
use crate::state::TcpPhase;
use TcpPhase::{
    CloseWait, Closed, Closing, Established, FinReceived, FinSent, FinWait, LastAck, SimsynSent,
    SynReceived, SynSent, TimeWait,
};
use npf_types::Way;
use npf_types::Way::Backward;

/// Where a segment leads, or None where it is refused.
type NextPhase = Option<TcpPhase>;

/// The phase to which a segment of this class leads, or None where it is refused.
pub fn cell(phase: TcpPhase, way: Way, class: SegmentClass) -> NextPhase
    ensures { result ≡ cell phase way class }
{
    let (no, stays) = (None, Some(phase));
    match (phase, way) {
        (Closed, _) => row(class, no, no, no, no),
        (SynSent, Backward) => row(class, Some(SimsynSent), Some(SynReceived), no, no),
        (SynSent, _) => row(class, stays, no, no, no),
        (SimsynSent, Backward) => row(class, stays, Some(SynReceived), no, Some(FinReceived)),
        (SimsynSent, _) => row(class, stays, Some(SynReceived), no, no),
        (SynReceived, Backward) => row(class, no, stays, stays, Some(FinReceived)),
        (SynReceived, _) => row(class, stays, stays, Some(Established), Some(FinSent)),
        (Established, Backward) => row(class, no, stays, stays, Some(FinReceived)),
        (Established, _) => row(class, no, no, stays, Some(FinSent)),
        (FinSent, Backward) => row(class, no, no, Some(FinWait), Some(Closing)),
        (FinSent, _) => row(class, no, no, stays, stays),
        (FinReceived, Backward) => row(class, no, no, stays, stays),
        (FinReceived, _) => row(class, no, no, Some(CloseWait), Some(Closing)),
        (CloseWait, Backward) => row(class, no, no, stays, stays),
        (CloseWait, _) => row(class, no, no, stays, Some(LastAck)),
        (FinWait, Backward) => row(class, no, no, stays, Some(LastAck)),
        (FinWait, _) => row(class, no, no, stays, stays),
        (Closing, _) => row(class, no, no, Some(LastAck), stays),
        (LastAck, _) => row(class, no, no, Some(TimeWait), stays),
        (TimeWait, _) => row(class, no, no, stays, stays),
    }
}

/// The cell of a class in a row of the table. A reset leads to CLOSED in each row.
fn row(
    class: SegmentClass,
    syn: NextPhase,
    syn_ack: NextPhase,
    ack: NextPhase,
    fin: NextPhase,
) -> NextPhase
    ensures { result ≡ row syn syn_ack ack fin class }
{
    match class {
        SegmentClass::Rst => Some(Closed),
        SegmentClass::Syn => syn,
        SegmentClass::SynAck => syn_ack,
        SegmentClass::Ack => ack,
        SegmentClass::Fin => fin,
        SegmentClass::Invalid => None,
    }
}
