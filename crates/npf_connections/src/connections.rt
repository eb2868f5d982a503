// The contract of a table.
//
// Each clause `view` names all that the pass shows after the call, so that a caller loses nothing, but for the epoch, which only rises. A
// hold says what it leaves of the connection's keys, so that a caller needs no law of the machine to give them up. What makes a sweep full, and
// by how much the epoch goes on, isn't said: that is the affair of tables that have nodes and epochs.
use npf_core::{ConnId, Entry, Found, Held, Kept, Law, Stepped};
use npf_types::{Key, Way};
use std::sync::Wait;

/// A table of connections that many threads use at a time, each by a pass of its own. No call takes memory.
///
/// A pass is a thread's sight of the table. Each call wants a pass of this table that is outside a
/// stay (`out`) or inside one (`inside`); `adds` names the entries by which the pass's history goes
/// on, and `view` all that the pass shows after it.
pub trait Connections<L: Law>: Sync {
    ghost use Rattle.std.specs.Prelude.{◌≡◌, ◌<◌, ◌≤◌, ◌+◌, true, false, ◌++◌, ◌∷◌, [], Contains};
    ghost use Rattle.npf_core.specs.declared.act.Act.TheVariants.{Look, Step, Start};
    ghost use Rattle.npf_core.specs.declared.entry.Entry.{Entry};
    ghost use Rattle.npf_core.specs.declared.held.Held.{Held};
    ghost use Rattle.npf_core.specs.declared.reply.Reply.TheVariants.{Nothing, ToLook, ToStep};
    ghost use Rattle.npf_core.specs.Copying.{Copies};
    ghost use Rattle.npf_core.specs.History.{state_of};
    ghost use Rattle.npf_core.specs.Machine.{HoldsNone};
    ghost use Rattle.npf_connections.specs.Abandoning.{Abandons};
    ghost use Rattle.npf_connections.specs.Adding.{Adds, AddsOwn};
    ghost use Rattle.npf_connections.specs.Answered.{found_ids, begun_ids, taken_ids, without};
    ghost use Rattle.npf_connections.specs.Beginning.{IsFullIfNone, HoldsNoneIfSome};
    ghost use Rattle.npf_connections.specs.Collecting.{FreesAlone, IsClean};
    ghost use Rattle.npf_connections.specs.Entries.{entry_of, claim_entries, hold_entries};
    ghost use Rattle.npf_connections.specs.Expiring.{Expires};
    ghost use Rattle.npf_connections.specs.Joining.{IsSplit, IsJoined};
    ghost use Rattle.npf_connections.specs.Pass.{Pass, Knows, all_places};
    ghost use Rattle.npf_connections.specs.Stay.{IsOut, IsIn, GoesOn};
    ghost use Rattle.npf_connections.specs.Ways.{KeepsWays, KeepsBare};

    /// What a thread calls the table with.
    type Pass: Send + Drop;

    /// What a pass shows.
    ghost view: { Self.Pass → Pass (Entry L.State L.Arg L.Reply) };

    /// The pass is one of this table.
    ghost fits: { Self → Self.Pass → Type 0 };

    /// How many slots the table has: each of its passes shows so many.
    fn slots(&self) -> u32
        ensures { (pass : Self.Pass) → fits self.now pass → (view pass).slots ≡ result };

    /// Begins a stay.
    fn enter(&self, rt: &impl Wait, pass: &mut Self::Pass)
        requires out { IsOut L.meaning (fits self.now) view pass.old }
        requires place { 1 ≤ (view pass.old).places }
        ensures inside { IsIn L.meaning (fits self.now) view pass.new }
        ensures adds { Adds (view pass.old) (view pass.new).history [] }
        ensures view { GoesOn (record (view pass.old) { entered = true }) (view pass.new) };

    /// Ends the stay: what was answered in it may be freed from now on.
    fn leave(&self, rt: &impl Wait, pass: &mut Self::Pass)
        requires inside { IsIn L.meaning (fits self.now) view pass.old }
        requires idle { (view pass.old).builds ≡ [] }
        ensures out { IsOut L.meaning (fits self.now) view pass.new }
        ensures adds { Adds (view pass.old) (view pass.new).history [] }
        ensures view { GoesOn
            (record (view pass.old) { entered = false; answered = [] })
            (view pass.new) };

    /// The key's holder, in whatever phase it is, for the packet of the number `n`. None exactly where the entry replies none.
    fn look(&self, rt: &impl Wait, pass: &mut Self::Pass, n: u64, key: Key) -> Option<Found>
        requires inside { IsIn L.meaning (fits self.now) view pass.old }
        ensures inside { IsIn L.meaning (fits self.now) view pass.new }
        ensures adds { AddsOwn (view pass.old) (view pass.new).history (entry_of (view pass.old) (Look n key) (ToLook result) ∷ []) }
        ensures view { GoesOn
            (record (view pass.old) { answered = found_ids result ++ (view pass.old).answered })
            (view pass.new) };

    /// The next step of a connection's flow, by a packet of that way. `NotLive` exactly where that incarnation isn't Live at the
    /// entry. `place` is the number of the connection's steps before this one; its start is number 0.
    fn step(
        &self,
        rt: &impl Wait,
        pass: &mut Self::Pass,
        id: ConnId,
        n: u64,
        way: Way,
        arg: &L::Arg,
    ) -> Stepped<L::Reply>
        requires inside { IsIn L.meaning (fits self.now) view pass.old }
        requires known { Knows (view pass.old) id }
        ensures inside { IsIn L.meaning (fits self.now) view pass.new }
        ensures adds { AddsOwn (view pass.old) (view pass.new).history (entry_of (view pass.old) (Step n id way arg.now) (ToStep result) ∷ []) }
        ensures view { GoesOn (view pass.old) (view pass.new) };

    /// A new connection, which is Building under this pass and holds no key. None means full: each slot was claimed at some
    /// point of the pass's history from what it had seen before this call on.
    fn begin(&self, rt: &impl Wait, pass: &mut Self::Pass, n: u64) -> Option<ConnId>
        requires inside { IsIn L.meaning (fits self.now) view pass.old }
        ensures inside { IsIn L.meaning (fits self.now) view pass.new }
        ensures adds { AddsOwn (view pass.old) (view pass.new).history (claim_entries (view pass.old) n result) }
        ensures full { IsFullIfNone L.meaning (view pass.old) (view pass.new).history result }
        ensures bare { HoldsNoneIfSome (state_of L.meaning (view pass.new).history) result }
        ensures view { GoesOn
            (record (view pass.old) {
              answered = begun_ids result ++ (view pass.old).answered;
              builds = begun_ids result ++ (view pass.old).builds;
            })
            (view pass.new) };

    /// The key for a connection that this pass is building, as its key of that way. `Taken` exactly where the key has that
    /// holder; `NoNode` only where the pass's count of full sweeps rose. After a refusal the connection holds what it held. The
    /// call begins a new stay: what was answered before it may be freed.
    fn hold(&self, rt: &impl Wait, pass: &mut Self::Pass, id: ConnId, key: Key, way: Way) -> Held
        requires inside { IsIn L.meaning (fits self.now) view pass.old }
        requires builds { Contains (view pass.old).builds id }
        requires none { HoldsNone (state_of L.meaning (view pass.old).history) id way }
        ensures inside { IsIn L.meaning (fits self.now) view pass.new }
        ensures adds { AddsOwn (view pass.old) (view pass.new).history (hold_entries (view pass.old) id key way result) }
        ensures ways { KeepsWays (state_of L.meaning (view pass.old).history) (state_of L.meaning (view pass.new).history) id way result }
        ensures bare { KeepsBare (state_of L.meaning (view pass.old).history) (state_of L.meaning (view pass.new).history) id way result }
        ensures sweep { result ≡ Held.NoNode → (view pass.old).sweeps + 1 ≤ (view pass.new).sweeps }
        ensures view { GoesOn
            (record (view pass.old) {
              answered = taken_ids result;
              sweeps = (view pass.new).sweeps;
            })
            (view pass.new) }
        ensures sweeps { (view pass.old).sweeps ≤ (view pass.new).sweeps };

    /// A connection that this pass was building is Live from now on, with this flow.
    fn start(&self, rt: &impl Wait, pass: &mut Self::Pass, id: ConnId, n: u64, init: L::State)
        requires inside { IsIn L.meaning (fits self.now) view pass.old }
        requires builds { Contains (view pass.old).builds id }
        ensures inside { IsIn L.meaning (fits self.now) view pass.new }
        ensures adds { AddsOwn (view pass.old) (view pass.new).history (entry_of (view pass.old) (Start id n init) Nothing ∷ []) }
        ensures view { GoesOn
            (record (view pass.old) { builds = without id (view pass.old).builds })
            (view pass.new) };

    /// Kills a connection that this pass was building, and gives up its keys.
    fn abandon(&self, rt: &impl Wait, pass: &mut Self::Pass, id: ConnId)
        requires inside { IsIn L.meaning (fits self.now) view pass.old }
        requires builds { Contains (view pass.old).builds id }
        ensures inside { IsIn L.meaning (fits self.now) view pass.new }
        ensures adds { Abandons L.meaning (view pass.old) (view pass.new).history id }
        ensures view { GoesOn
            (record (view pass.old) { builds = without id (view pass.old).builds })
            (view pass.new) };

    /// Kills connections that are due at that time, gives up their keys, and answers how many it killed. One that was Live in
    /// what the pass had seen before the call and isn't killed by it was not due at some point of the history from there on.
    fn expire(&self, rt: &impl Wait, pass: &mut Self::Pass, now: u64) -> u64
        requires out { IsOut L.meaning (fits self.now) view pass.old }
        ensures out { IsOut L.meaning (fits self.now) view pass.new }
        ensures adds { Expires L.meaning (view pass.old) (view pass.new).history now result }
        ensures view { GoesOn (view pass.old) (view pass.new) };

    /// Frees what may be freed. Where the pass owns all reader places and isn't worn, no connection is Dead after it.
    fn collect(&self, rt: &impl Wait, pass: &mut Self::Pass)
        requires out { IsOut L.meaning (fits self.now) view pass.old }
        ensures out { IsOut L.meaning (fits self.now) view pass.new }
        ensures adds { FreesAlone (view pass.old) (view pass.new).history }
        ensures clean { IsClean L.meaning (view pass.new) }
        ensures view { GoesOn (view pass.old) (view pass.new) };

    /// A copy of the slot's connection, with the keys that it holds. None exactly where none is Live there. The call adds no entry;
    /// the pass owns all reader places, so no other is left.
    fn copy_slot(&self, rt: &impl Wait, pass: &mut Self::Pass, slot: u32) -> Option<Kept<L::State>>
        requires out { IsOut L.meaning (fits self.now) view pass.old }
        requires sole { (view pass.old).places ≡ all_places }
        requires exists { slot < (view pass.old).slots }
        ensures out { IsOut L.meaning (fits self.now) view pass.new }
        ensures same { view pass.new ≡ view pass.old }
        ensures copies { Copies (state_of L.meaning (view pass.old).history) slot result };

    /// Gives one of the pass's reader places to a new pass, which has seen the same history.
    fn split(&self, rt: &impl Wait, pass: &mut Self::Pass) -> Self::Pass
        requires out { IsOut L.meaning (fits self.now) view pass.old }
        requires places { 2 ≤ (view pass.old).places }
        ensures out { IsOut L.meaning (fits self.now) view pass.new }
        ensures given { IsOut L.meaning (fits self.now) view result }
        ensures splits { IsSplit (view pass.old) (view pass.new) (view result) };

    /// Takes in another pass of this table, with its reader places. The pass has then seen the longer of both histories.
    fn join(&self, rt: &impl Wait, pass: &mut Self::Pass, other: Self::Pass)
        requires out { IsOut L.meaning (fits self.now) view pass.old }
        requires other { IsOut L.meaning (fits self.now) view other }
        ensures out { IsOut L.meaning (fits self.now) view pass.new }
        ensures joins { IsJoined (view pass.old) (view other) (view pass.new) };
}
