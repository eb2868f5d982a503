// What follows of what the parts of phases are. Each function does nothing: it is a theorem.
ghost use Rattle.npf_ctl_aging.specs.Laws.{LastTickIsLast, PacketsStay, PartsAreCounted, PublicationsStayInOrder};

/// The parts have as many packets as the phases.
pub fn packets_stay()
    ensures { PacketsStay }
{}

/// They publish what the phases publish, in order.
pub fn publications_stay_in_order()
    ensures { PublicationsStayInOrder }
{}

/// There are two parts more for each packet that follows a multiple, so that their count is bounded by the limit on these packets.
pub fn parts_are_counted()
    ensures { PartsAreCounted }
{}

/// The multiple that a packet follows is the last one that isn't after its time.
pub fn last_tick_is_last()
    ensures { LastTickIsLast }
{}
