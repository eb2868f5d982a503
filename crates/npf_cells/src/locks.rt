// The locks of places: a try, and a store that gives the lock back.
ghost use Rattle.std.specs.Prelude.{◌≡◌};

use crate::cells::{CellPass, Cells};
use crate::rule::Running;
use crate::told::StepTold;
use atomic_table::Play;
use npf_cells_rule::CellView;
use npf_core::Law;
use npf_paths::{KeyHash, Lock};
use std::marker::{Brand, PhantomData};

/// The state of what isn't locked, and of what is.
const FREE: u64 = 0;

const LOCKED: u64 = 1;

pub(crate) struct GetsLock<L: Law, H: KeyHash, W> {
    law: PhantomData<L>,
    hash: PhantomData<H>,
    aim: PhantomData<W>,
}

impl<L: Law, H: KeyHash, W: StepTold> Play<Running<L::State>, CellView<L::State, L::Arg, L::Reply>>
    for GetsLock<L, H, W> {
    ghost use Rattle.npf_cells_holds.specs.LockKinds.{TriesLock};

    ghost then = { TriesLock L.meaning H.digest W.told.layout W.told.lock };
}

pub(crate) struct StoresNode<W> {
    aim: PhantomData<W>,
}

impl<F, S, A, R, W: StepTold> Play<F, CellView<S, A, R>> for StoresNode<W> {
    ghost use Rattle.npf_cells_holds.specs.LockKinds.{StoresState};

    ghost then = { StoresState W.told.layout W.told.lock W.told.state };
}

impl<L: Law, H: KeyHash> Cells<L, H> {
    ghost use Rattle.std.specs.Prelude.{◌≡◌, ◌<◌, ◌↔◌, ℕ, true, false, Contains};
    ghost use Rattle.npf_cells_holds.specs.LockKinds.{GotLock, MayStoreState, locking, unlocking};
    ghost use Rattle.npf_cells_words.specs.Places.{IsLockOf, lock_at};
    ghost use Rattle.npf_cells_rule.specs.Views.{with_trie};
    ghost use Rattle.npf_cells.specs.Cells.{IsPassIn};
    ghost use Rattle.npf_cells_rule.specs.Passes.{IsProtected};

    /// Tries to get a lock. Answers whether it did: false where a pass had it in some state that keeps the rule.
    pub fn try_lock(&self, pass: &mut CellPass<L>, lock: Lock) -> bool
        requires own { IsPassIn self.now pass.old }
        requires lock { IsLockOf self.now.table.shared.key lock }
        requires protected { IsProtected pass.old.seat.me.0.epochs.pin }
        ensures own { IsPassIn self.now pass.new }
        ensures gets { result ≡ true → pass.new.seat.me ≡ with_trie pass.old.seat.me (locking lock pass.old.seat.me.0.trie) }
        ensures same { result ≡ false → pass.new.seat.me ≡ pass.old.seat.me }
        ensures answers { GotLock L.meaning H.digest self.now.table.shared.key pass.old.seat.me.0 lock result }
    {
        self.try_lock_as::<Brand>(pass, lock)
    }

    fn try_lock_as<W: StepTold>(&self, pass: &mut CellPass<L>, lock: Lock) -> bool
        requires own { IsPassIn self.now pass.old }
        requires lock { IsLockOf self.now.table.shared.key lock }
        requires protected { IsProtected pass.old.seat.me.0.epochs.pin }
        requires aim { (W.told.layout ≡ self.now.table.shared.key) × (W.told.lock ≡ lock) }
        ensures own { IsPassIn self.now pass.new }
        ensures gets { result ≡ true → pass.new.seat.me ≡ with_trie pass.old.seat.me (locking lock pass.old.seat.me.0.trie) }
        ensures same { result ≡ false → pass.new.seat.me ≡ pass.old.seat.me }
        ensures answers { GotLock L.meaning H.digest self.now.table.shared.key pass.old.seat.me.0 lock result }
    {
        let word = self.layout.lock_place(lock);
        let found = self
            .table
            .shared
            .compare_exchange::<GetsLock<L, H, W>>(&mut pass.seat, word, FREE, LOCKED);
        found == FREE
    }

    /// Stores the state of a node, or of a place of the root, whose lock the pass has: 0 frees the lock, unless it is of a node that the pass
    /// marked. Such a node it lets go, once its mark stands in its place, by the epoch that it loaded since, plus 2^63.
    pub fn store_node(&self, pass: &mut CellPass<L>, lock: Lock, state: u64)
        requires own { IsPassIn self.now pass.old }
        requires lock { IsLockOf self.now.table.shared.key lock }
        requires locked { Contains pass.old.seat.me.0.trie.locks lock }
        requires state { MayStoreState pass.old.seat.me.0 lock state }
        ensures own { IsPassIn self.now pass.new }
        ensures next { pass.new.seat.me ≡ with_trie pass.old.seat.me (unlocking self.now.table.shared.key lock state pass.old.seat.me.0.trie) }
    {
        self.store_node_as::<Brand>(pass, lock, state);
    }

    fn store_node_as<W: StepTold>(&self, pass: &mut CellPass<L>, lock: Lock, state: u64)
        requires own { IsPassIn self.now pass.old }
        requires lock { IsLockOf self.now.table.shared.key lock }
        requires locked { Contains pass.old.seat.me.0.trie.locks lock }
        requires state { MayStoreState pass.old.seat.me.0 lock state }
        requires aim { (W.told.layout ≡ self.now.table.shared.key) × (W.told.lock ≡ lock) × (W.told.state ≡ state) }
        ensures own { IsPassIn self.now pass.new }
        ensures next { pass.new.seat.me ≡ with_trie pass.old.seat.me (unlocking self.now.table.shared.key lock state pass.old.seat.me.0.trie) }
    {
        let word = self.layout.lock_place(lock);
        self.table
            .shared
            .store::<StoresNode<W>>(&mut pass.seat, word, state);
    }
}
