// The law of aging: where no flow steps between multiples of a period, one expiry as of the last of them kills what an expiry as of each would,
// so that a run needs no more than one between two packets. The function does nothing: it is a theorem.
//
// It rests on the law that a flow which is due stays due until its next packet (npf_flow), and is said of what an expiry answers
// (npf_connections).
#![tactic(auto)]

ghost use Rattle.npf_ctl_aging_law.specs.OneExpiry.{LastMultipleIsEnough, LastMultipleKillsAll};

use npf_flow::laws::due_by_idle_time;

/// A connection is due as of the last multiple that isn't after a time exactly where it is due as of one of these multiples. So an expiry as of
/// the last kills each connection that was Live before and that some of them may kill at each point of the call.
pub fn one_expiry_is_enough()
    ensures enough { LastMultipleIsEnough }
    ensures kills { LastMultipleKillsAll }
{
    due_by_idle_time();
}
