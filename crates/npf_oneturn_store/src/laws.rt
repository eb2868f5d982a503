// What ties a store to the machine of connections. The functions do nothing: each is a theorem.
ghost use Rattle.npf_oneturn_store.specs.RepresentLaw.{NewIsOpening, StaysSame, ShowsPhases, ShowsBuilding, ShowsAlive, LookIsAct, ClaimIsAct, FullIsClaimed, HoldIsAct, StartIsAct, StepIsAct, KillIsAct, UnholdIsAct, FreeIsAct, ShowsBare, ShowsKeys, ShowsKept, ShowsDead, ShowsDue};

use npf_core::Law;

/// A new store is in the opening state; a store in which all is as it was represents the same state; and a store shows the phase
/// of each identity, so that what the machine lets start or be killed may be.
pub fn state_law<L: Law>()
    ensures opening { NewIsOpening L.State }
    ensures same { StaysSame L.State }
    ensures phases { ShowsPhases L.State }
    ensures building { ShowsBuilding L.State }
    ensures alive { ShowsAlive L.State }
    ensures dead { ShowsDead L.State }
    ensures due { ShowsDue L.meaning }
{}

/// A look-up finds the key's holder.
pub fn look_law<L: Law>()
    ensures { LookIsAct L.meaning }
{}

/// A claim is a claim of the lowest slot that may be claimed, and where there is none each slot is claimed.
pub fn claim_law<L: Law>()
    ensures claims { ClaimIsAct L.meaning }
    ensures full { FullIsClaimed L.State }
{}

/// A hold gives a key that has no holder, and tells the holder of one that has.
pub fn hold_law<L: Law>()
    ensures { HoldIsAct L.meaning }
{}

/// A start makes a connection that is Building Live.
pub fn start_law<L: Law>()
    ensures { StartIsAct L.meaning }
{}

/// A step of a claimed connection is answered by the law where it is Live, and else NotLive.
pub fn step_law<L: Law>()
    ensures { StepIsAct L.meaning }
{}

/// A kill ends a connection that is Building or Live.
pub fn kill_law<L: Law>()
    ensures { KillIsAct L.meaning }
{}

/// An unhold takes back what a connection holds that way.
pub fn unhold_law<L: Law>()
    ensures { UnholdIsAct L.meaning }
{}

/// A free gives back the slot of a Dead connection.
pub fn free_law<L: Law>()
    ensures { FreeIsAct L.meaning }
{}

/// A store shows which keys a connection holds, of which ways it holds none, and which connection is Live in a slot.
pub fn held_law<L: Law>()
    ensures bare { ShowsBare L.State }
    ensures keys { ShowsKeys L.State }
    ensures kept { ShowsKept L.State }
{}
