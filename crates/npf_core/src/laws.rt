// What holds of every history, of every law and for every number of slots. The functions do nothing: each is a theorem.
ghost use Rattle.std.specs.Prelude.{ℕ};
ghost use Rattle.npf_core.specs.BuildingLaw.{ClaimsBuild, StaysBuilding, IsGivenNone};
ghost use Rattle.npf_core.specs.ClaimedLaw.{StaysClaimed, WasNotFreed, WasClaimed};
ghost use Rattle.npf_core.specs.HistoryLaw.{PrefixesAreLegal, GoesOnLegally, GoesOnTo, ByAppend, PrefixesNest, ActsDecide};
ghost use Rattle.npf_core.specs.HolderLaw.{HoldersAreClaimed, UnclaimedHoldNone, HoldsOneAWay, ClaimsWithNone, InEachState};
ghost use Rattle.npf_core.specs.IdentityLaw.{ClaimsOnce, CountsIncarnations};
ghost use Rattle.npf_core.specs.KeyLaw.{KeepsKeys, SharesNoKey, WasGiven, StaysHolder};
ghost use Rattle.npf_core.specs.LookUpLaw.{LooksUpStale};
ghost use Rattle.npf_core.specs.ReplayLaw.{ReplaysFlows, ReplaysAnswers};

use crate::law::Law;

/// The replay law: a Live connection's flow is the replay of its start and its Done Steps, and its count is theirs. So each
/// Done Step answers by the replay of those before it, and its place is their number.
pub fn replay_law<L: Law>()
    ensures flows { (slots : ℕ) → ReplaysFlows L.meaning slots }
    ensures answers { (slots : ℕ) → ReplaysAnswers L.meaning slots }
{}

/// The key law: a connection that is Building or Live holds every key that a Hold gave it, and no key has two holders. Who
/// holds a key was given it by a Hold, and holds it as long as it is Building or Live.
pub fn key_law<L: Law>()
    ensures kept { (slots : ℕ) → KeepsKeys L.meaning slots }
    ensures alone { (slots : ℕ) → SharesNoKey L.meaning slots }
    ensures given { (slots : ℕ) → WasGiven L.meaning slots }
    ensures stays { (slots : ℕ) → StaysHolder L.meaning slots }
{}

/// The identity law: an identity is claimed at most once, and its incarnation is a number of 64 bits.
pub fn identity_law<L: Law>()
    ensures once { (slots : ℕ) → ClaimsOnce L.meaning slots }
    ensures fits { (slots : ℕ) → CountsIncarnations L.meaning slots }
{}

/// The stale look-up law: where a Look finds a holder, and a later Step of it is answered NotLive, the key had no Live holder
/// after the Look or after one of the entries up to the Step.
pub fn stale_look_up_law<L: Law>()
    ensures { (slots : ℕ) → LooksUpStale L.meaning slots }
{}

/// What a claim gives is Building under its seat; the entries of other seats leave it alone, and give it no key.
pub fn building_law<L: Law>()
    ensures claimed { ClaimsBuild L.meaning }
    ensures stays { (slots : ℕ) → StaysBuilding L.meaning slots }
    ensures given { (slots : ℕ) → IsGivenNone L.meaning slots }
{}

/// A claimed identity was claimed by an entry, which was answered it. Entries that don't free it leave it claimed, and one that
/// is claimed before and after some entries wasn't freed by them.
pub fn claimed_law<L: Law>()
    ensures claimed { (slots : ℕ) → WasClaimed L.meaning slots }
    ensures stays { (slots : ℕ) → StaysClaimed L.meaning slots }
    ensures unfreed { (slots : ℕ) → WasNotFreed L.meaning slots }
{}

/// Who holds a key is claimed; an identity that isn't claimed holds none, and so none when it is claimed next; and a connection
/// holds one key of a way at most.
pub fn holder_law<L: Law>()
    ensures claimed { (slots : ℕ) → InEachState L.meaning slots HoldersAreClaimed }
    ensures unclaimed { (slots : ℕ) → InEachState L.meaning slots UnclaimedHoldNone }
    ensures new { (slots : ℕ) → InEachState L.meaning slots ClaimsWithNone }
    ensures one { (slots : ℕ) → InEachState L.meaning slots HoldsOneAWay }
{}

/// A history goes on by an entry that may follow, to the next state; prefixes of legal histories are legal; and a legal history
/// is decided by its acts.
pub fn history_law<L: Law>()
    ensures prefix { (slots : ℕ) → PrefixesAreLegal L.meaning slots }
    ensures appended { (slots : ℕ) → GoesOnLegally L.meaning slots }
    ensures state { GoesOnTo L.meaning }
    ensures decided { (slots : ℕ) → ActsDecide L.meaning slots }
    ensures entries { ByAppend L.State L.Arg L.Reply }
    ensures nested { PrefixesNest L.State L.Arg L.Reply }
{}
