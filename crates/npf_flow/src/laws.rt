// What follows of the law of flows, whatever the flow and the packets: each is a theorem about the definitions that
// `FlowLaw`, `due` and `open_flow` equal.
ghost use Rattle.std.specs.Prelude.{◌≡◌};
ghost use Rattle.npf_flow.specs.Flows.{flow_law};
ghost use Rattle.npf_flow.specs.Laws.{RefusedLeavesFlow, RefusedLeaveNoTrace, PeekLeavesFlow, LastNeverFalls, LastIsLatest, OpeningStays, ProtocolStays, StaysAnswered, IsDueExactly, IsNotDueBeforeLast, IsNotDueByLast, IsNotDueAtPacket, IsNotDueAtOpening, StaysDue, IsAsItsPackets, ReachedIsQuiet, MaxwinStaysUp};

use crate::law::FlowLaw;
use npf_core::Law;
use npf_tcp::laws::maxwin_never_falls;

/// What `FlowLaw` means as a law of the machine of connections is the law of flows.
pub fn meaning_is_flow_law()
    ensures { ⟦<FlowLaw as Law>⟧.meaning ≡ flow_law }
{}

/// A refused packet leaves the flow as it is, and so does one that only peeks. So a flow after any packets is what those of the others
/// make of it that it accepts.
pub fn refused_leaves_flow()
    ensures packet { RefusedLeavesFlow }
    ensures packets { RefusedLeaveNoTrace }
{}

/// A packet that only peeks passes, with the change of its way, and leaves the flow as it is.
pub fn peek_leaves_flow()
    ensures { PeekLeavesFlow }
{}

/// No packet takes a flow's last time back, and after any packets it is the latest of its own and of those that were accepted and didn't
/// only peek.
pub fn last_never_falls()
    ensures packet { LastNeverFalls }
    ensures packets { LastIsLatest }
{}

/// A flow's opener, changes, action and timeouts never change.
pub fn opening_stays()
    ensures { OpeningStays }
{}

/// A flow of TCP stays one of TCP, and one of another protocol doesn't become one.
pub fn protocol_stays()
    ensures { ProtocolStays }
{}

/// An answered flow stays answered.
pub fn stays_answered()
    ensures { StaysAnswered }
{}

/// A flow is due exactly from its last time and its own timeout on. So it isn't due before its last time, and one that is due stays
/// due until its next packet. Where its timeouts are such as can be set, it isn't due at its last time either, neither at the time
/// of an accepted packet that doesn't only peek nor at its opening.
pub fn due_by_idle_time()
    ensures exactly { IsDueExactly }
    ensures before { IsNotDueBeforeLast }
    ensures last { IsNotDueByLast }
    ensures packet { IsNotDueAtPacket }
    ensures opening { IsNotDueAtOpening }
    ensures stays { StaysDue }
{}

/// After any packets a flow of a protocol other than TCP is answered exactly where it was or one of them came backward, its
/// last time is the latest of all, and all else is what its opening made it. Packets that only peek don't count.
pub fn flow_is_as_its_packets()
    ensures { IsAsItsPackets }
{}

/// After any packets since the opening of a flow of TCP, a side that isn't seen has offered no window, as the laws of TCP ask;
/// so no packet lowers the greatest window of a side.
pub fn windows_stay_up()
    ensures quiet { ReachedIsQuiet }
    ensures packet { MaxwinStaysUp }
{
    maxwin_never_falls();
}
