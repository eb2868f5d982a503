// What follows of what the phases of a run are. Each function does nothing: it is a theorem.
ghost use Rattle.npf_ctl_schedule.specs.Laws.{PacketsAddUp, PublicationsAreInOrder};

/// The phases of a run have all of its packets.
pub fn packets_add_up()
    ensures { PacketsAddUp }
{}

/// The phases of a run publish its changes in order, behind the first configuration.
pub fn publications_are_in_order()
    ensures { PublicationsAreInOrder }
{}
