// What holds of every pass of every table. The functions do nothing: each is a theorem.
ghost use Rattle.npf_connections.specs.AddLaw.{BeginsWithOld, GoesOnByOwn, AddsMore, AddsAlone};
ghost use Rattle.npf_connections.specs.RecordLaw.{ListedAddNothing, EndsWithOwn, SoleIsAlone, RestsUnanswered, RestsIdle, EpochsEnd, NumbersAreNew, JoinsAnother, JoinsOneTable};
ghost use Rattle.npf_connections.specs.SaidLaw.{DidNothing, DidMore, DidAbandon};
ghost use Rattle.npf_connections.specs.StayLaw.{KnownIsNotFreed, ClaimedHoldsNone, HoldingKeepsWays, HoldingKeepsBare};

use npf_core::Law;

/// After a call the history begins with what it was, and the entries of the pass go on by those that the call adds; what two calls
/// add is what the one adds and then what the other does; and a pass that owns all reader places adds its own entries alone.
pub fn add_law<L: Law>()
    ensures begins { BeginsWithOld L.State L.Arg L.Reply }
    ensures own { GoesOnByOwn L.State L.Arg L.Reply }
    ensures more { AddsMore L.State L.Arg L.Reply }
    ensures alone { AddsAlone L.meaning }
{}

/// What a pass knows isn't freed, what it claimed holds no key, and a hold changes no way but its own.
pub fn stay_law<L: Law>()
    ensures unfreed { KnownIsNotFreed L.meaning }
    ensures claimed { ClaimedHoldsNone L.meaning }
    ensures ways { HoldingKeepsWays L.meaning }
    ensures bare { HoldingKeepsBare L.meaning }
{}

/// What the records refuse: an entry under the number of a pass that was joined, an end by another's entry, an unknown entry in the
/// history of a pass that owns all reader places, answers and building outside a stay, an epoch past the last, a number that is
/// given again, and a join with itself or across tables.
pub fn record_law<L: Law>()
    ensures listed { ListedAddNothing L.State L.Arg L.Reply }
    ensures ends { EndsWithOwn L.State L.Arg L.Reply }
    ensures alone { SoleIsAlone L.meaning }
    ensures unanswered { RestsUnanswered L.meaning }
    ensures idle { RestsIdle L.meaning }
    ensures epochs { EpochsEnd L.meaning }
    ensures numbers { NumbersAreNew L.State L.Arg L.Reply }
    ensures another { JoinsAnother L.State L.Arg L.Reply }
    ensures tables { JoinsOneTable L.State L.Arg L.Reply }
{}

/// What a pass said over some calls goes on by what it says next; who abandons a connection says its end.
pub fn said_law<L: Law>()
    ensures nothing { DidNothing L.State L.Arg L.Reply }
    ensures more { DidMore L.State L.Arg L.Reply }
    ensures abandon { DidAbandon L.meaning }
{}
