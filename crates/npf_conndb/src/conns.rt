// The table of connections without locks, as the calls that any table has.
ghost use Rattle.std.specs.Prelude.{◌≤◌, ◌<◌};

use crate::begin::begin;
use crate::collect::collect;
use crate::copy::copy_slot;
use crate::endings::end_killed;
use crate::expire::expire_all;
use npf_cells::{CellPass, Cells};
use npf_connections::Connections;
use npf_core::{ConnId, Found, Held, Kept, Law, Stepped};
use npf_epoch::{enter, leave};
use npf_paths::KeyHash;
use npf_trie::{hold, look};
use npf_turn::{kill, start, step};
use npf_types::{Key, NoMemory, Way};
use std::alloc::Global;
use std::sync::Wait;

/// A table of connections without locks.
#[derive(Drop)]
pub struct Conns<L: Law, H: KeyHash> {
    cells: Cells<L, H>,
    ghost few: { cells.table.shared.key.slots ≤ 65536 },
    ghost roomy: { 16 ≤ cells.table.shared.key.nodes },
}

/// A pass of such a table.
#[derive(Drop)]
pub struct ConnPass<L: Law> {
    cells: CellPass<L>,
}

impl<L: Law, H: KeyHash> Conns<L, H> {
    ghost use Rattle.std.specs.Prelude.{◌≡◌, ◌≤◌, ◌++◌, ◌∷◌, [], true, false, IfOk};
    ghost use Rattle.npf_core.specs.declared.act.Act.TheVariants.{Look};
    ghost use Rattle.npf_core.specs.declared.reply.Reply.TheVariants.{ToLook};
    ghost use Rattle.npf_connections.specs.Adding.{Adds, AddsOwn};
    ghost use Rattle.npf_connections.specs.Answered.{found_ids};
    ghost use Rattle.npf_connections.specs.Entries.{entry_of};
    ghost use Rattle.npf_connections.specs.Pass.{IsPass, IsFirstPass};
    ghost use Rattle.npf_connections.specs.Stay.{IsOut, IsIn, GoesOn};
    ghost use Rattle.npf_trie.specs.LookUp.{RoseBy, GetsNoLock};
    ghost use Rattle.npf_conndb.specs.Passes.{IsPassOfConns, shown};

    /// A table of so many slots and nodes, and its first pass, which owns all 66 reader places. All the memory that it ever has is taken here.
    pub fn new(
        alloc: Global,
        slots: u32,
        nodes: u32,
    ) -> Result<(Conns<L, H>, ConnPass<L>), NoMemory>
        requires slots { (1 ≤ slots) × (slots ≤ 65536) }
        requires nodes { (16 ≤ nodes) × (nodes ≤ 262144) }
        ensures fits { IfOk result (λ made. IsPassOfConns L.meaning made.0 made.1) }
        ensures first { IfOk result (λ made. IsFirstPass slots (shown made.1)) }
        ensures legal { IfOk result (λ made. IsPass L.meaning (shown made.1)) }
    {
        let (cells, pass) = Cells::new(alloc, slots, nodes)?;
        Ok((Conns { cells }, ConnPass { cells: pass }))
    }

    /// Begins a stay.
    #[inline(always)]
    pub fn enter(&self, pass: &mut ConnPass<L>)
        requires out { IsOut L.meaning (IsPassOfConns L.meaning self.now) shown pass.old }
        ensures inside { IsIn L.meaning (IsPassOfConns L.meaning self.now) shown pass.new }
        ensures adds { Adds (shown pass.old) (shown pass.new).history [] }
        ensures view { GoesOn (record (shown pass.old) { entered = true }) (shown pass.new) }
    {
        enter(&self.cells, &mut pass.cells);
    }

    /// Ends the stay: what was answered in it may be freed from now on.
    #[inline(always)]
    pub fn leave(&self, pass: &mut ConnPass<L>)
        requires inside { IsIn L.meaning (IsPassOfConns L.meaning self.now) shown pass.old }
        requires idle { (shown pass.old).builds ≡ [] }
        ensures out { IsOut L.meaning (IsPassOfConns L.meaning self.now) shown pass.new }
        ensures adds { Adds (shown pass.old) (shown pass.new).history [] }
        ensures view { GoesOn (record (shown pass.old) { entered = false; answered = [] }) (shown pass.new) }
    {
        leave(&self.cells, &mut pass.cells);
    }

    /// The key's holder, in whatever phase it is, for the packet of the number `n`. None exactly where the entry replies none. It loads at most
    /// 95 places of the trie and five words of keys, and takes no lock.
    #[inline(always)]
    pub fn look(&self, pass: &mut ConnPass<L>, n: u64, key: Key) -> Option<Found>
        requires inside { IsIn L.meaning (IsPassOfConns L.meaning self.now) shown pass.old }
        ensures inside { IsIn L.meaning (IsPassOfConns L.meaning self.now) shown pass.new }
        ensures adds { AddsOwn (shown pass.old) (shown pass.new).history (entry_of (shown pass.old) (Look n key) (ToLook result) ∷ []) }
        ensures view { GoesOn (record (shown pass.old) { answered = found_ids result ++ (shown pass.old).answered }) (shown pass.new) }
        ensures places { RoseBy 95 pass.old.cells.seat.me.0.trie.places pass.new.cells.seat.me.0.trie.places }
        ensures words { RoseBy 5 pass.old.cells.seat.me.0.trie.words pass.new.cells.seat.me.0.trie.words }
        ensures lockless { GetsNoLock pass.old.cells.seat.me.0.trie pass.new.cells.seat.me.0.trie }
    {
        look(&self.cells, &mut pass.cells, n, key)
    }
}

impl<L: Law, H: KeyHash> Connections<L> for Conns<L, H>
where
    L::State: Send,
{
    ghost use Rattle.npf_connections.specs.Collecting.{FreesAlone, IsClean};
    ghost use Rattle.npf_connections.specs.Stay.{IsOut, GoesOn};
    ghost use Rattle.npf_conndb.specs.Passes.{IsPassOfConns, shown};
    ghost use Rattle.npf_conndb.specs.SlotVisit.{VisitsSlots};

    type Pass = ConnPass<L>;

    ghost view = { shown };

    ghost fits = { IsPassOfConns L.meaning };

    fn slots(&self) -> u32 {
        self.cells.layout().slots
    }

    fn enter(&self, _rt: &impl Wait, pass: &mut ConnPass<L>) {
        self.enter(pass);
    }

    fn leave(&self, _rt: &impl Wait, pass: &mut ConnPass<L>) {
        self.leave(pass);
    }

    #[inline(always)]
    fn look(&self, _rt: &impl Wait, pass: &mut ConnPass<L>, n: u64, key: Key) -> Option<Found> {
        self.look(pass, n, key)
    }

    #[inline(always)]
    fn step(
        &self,
        rt: &impl Wait,
        pass: &mut ConnPass<L>,
        id: ConnId,
        n: u64,
        way: Way,
        arg: &L::Arg,
    ) -> Stepped<L::Reply> {
        step(rt, &self.cells, &mut pass.cells, id, n, way, arg)
    }

    fn begin(&self, rt: &impl Wait, pass: &mut ConnPass<L>, n: u64) -> Option<ConnId> {
        begin(rt, &self.cells, &mut pass.cells, n)
    }

    fn hold(&self, rt: &impl Wait, pass: &mut ConnPass<L>, id: ConnId, key: Key, way: Way) -> Held {
        hold(rt, &self.cells, &mut pass.cells, id, key, way)
    }

    fn start(&self, rt: &impl Wait, pass: &mut ConnPass<L>, id: ConnId, n: u64, init: L::State) {
        start(rt, &self.cells, &mut pass.cells, id, n, init);
    }

    fn abandon(&self, rt: &impl Wait, pass: &mut ConnPass<L>, id: ConnId) {
        kill(rt, &self.cells, &mut pass.cells, id);
        end_killed(rt, &self.cells, &mut pass.cells, id);
    }

    fn expire(&self, rt: &impl Wait, pass: &mut ConnPass<L>, now: u64) -> u64 {
        // A key is given up under its place's lock, and who gets a lock is in a stay.
        enter(&self.cells, &mut pass.cells);
        let count = expire_all(rt, &self.cells, &mut pass.cells, now);
        leave(&self.cells, &mut pass.cells);
        count
    }

    // As the trait's, and it visits each slot: it frees the connection there, or the slot was left for what it met there.
    fn collect(&self, rt: &impl Wait, pass: &mut ConnPass<L>)
        requires out { IsOut L.meaning (IsPassOfConns L.meaning self.now) shown pass.old }
        ensures out { IsOut L.meaning (IsPassOfConns L.meaning self.now) shown pass.new }
        ensures adds { FreesAlone (shown pass.old) (shown pass.new).history }
        ensures clean { IsClean L.meaning (shown pass.new) }
        ensures view { GoesOn (shown pass.old) (shown pass.new) }
        ensures visits { VisitsSlots L.meaning H.digest self.now.cells.table.shared.key (λ slot. slot < self.now.cells.table.shared.key.slots) pass.old.cells.seat.me.0 pass.new.cells.seat.me.0 }
    {
        collect(rt, &self.cells, &mut pass.cells);
    }

    fn copy_slot(
        &self,
        rt: &impl Wait,
        pass: &mut ConnPass<L>,
        slot: u32,
    ) -> Option<Kept<L::State>> {
        copy_slot(rt, &self.cells, &mut pass.cells, slot)
    }

    fn split(&self, _rt: &impl Wait, pass: &mut ConnPass<L>) -> ConnPass<L> {
        ConnPass {
            cells: self.cells.split(&mut pass.cells),
        }
    }

    fn join(&self, _rt: &impl Wait, pass: &mut ConnPass<L>, other: ConnPass<L>) {
        let ConnPass { cells } = other;
        self.cells.join(&mut pass.cells, cells);
    }
}
