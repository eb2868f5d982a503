// Emptied nodes of the trie: one is marked, its mark takes its place, and once it was let go (by `store_node`) and nobody is in it any more it comes back.
ghost use Rattle.std.specs.Prelude.{◌≡◌, ◌<◌, ◌^◌};
ghost use Rattle.npf_cells_words.specs.MarkWords.{mark_word};

use crate::cells::{CellPass, Cells};
use crate::rule::Running;
use crate::told::StepTold;
use atomic_table::Play;
use npf_cells_rule::CellView;
use npf_cells_words::{PARENT, Pool, STATE};
use npf_core::Law;
use npf_paths::{KeyHash, Lock, Place};
use std::marker::{Brand, PhantomData};

/// The state of a node that its pass marked, and has locked.
const MARKED: u64 = 2;

/// The state of a node that nobody has: it is free.
const FREE: u64 = 0;

/// The word of a place where nothing stands.
const NOTHING: u64 = 0;

pub(crate) struct LoadsCellWord<L: Law, H: KeyHash, W> {
    law: PhantomData<L>,
    hash: PhantomData<H>,
    aim: PhantomData<W>,
}

impl<L: Law, H: KeyHash, W: StepTold> Play<Running<L::State>, CellView<L::State, L::Arg, L::Reply>>
    for LoadsCellWord<L, H, W> {
    ghost use Rattle.npf_cells_returns.specs.LoadKinds.{LoadsCell};

    ghost then = { LoadsCell L.meaning H.digest W.told.layout W.told.place };
}

pub(crate) struct LoadsParentWord<L: Law, H: KeyHash, W> {
    law: PhantomData<L>,
    hash: PhantomData<H>,
    aim: PhantomData<W>,
}

impl<L: Law, H: KeyHash, W: StepTold> Play<Running<L::State>, CellView<L::State, L::Arg, L::Reply>>
    for LoadsParentWord<L, H, W> {
    ghost use Rattle.npf_cells_returns.specs.LoadKinds.{LoadsParent};

    ghost then = { LoadsParent L.meaning H.digest W.told.layout W.told.number };
}

pub(crate) struct LoadsStateWord<L: Law, H: KeyHash, W> {
    law: PhantomData<L>,
    hash: PhantomData<H>,
    aim: PhantomData<W>,
}

impl<L: Law, H: KeyHash, W: StepTold> Play<Running<L::State>, CellView<L::State, L::Arg, L::Reply>>
    for LoadsStateWord<L, H, W> {
    ghost use Rattle.npf_cells_returns.specs.LoadKinds.{LoadsState};

    ghost then = { LoadsState L.meaning H.digest W.told.layout W.told.number };
}

/// A store of the state of a node that is marked.
pub(crate) struct MarksState;

impl<F, S, A, R> Play<F, CellView<S, A, R>> for MarksState {
    ghost use Rattle.npf_cells_returns.specs.MarkKinds.{MarksEmptied};

    ghost then = { MarksEmptied };
}

pub(crate) struct PutsMark<W> {
    aim: PhantomData<W>,
}

impl<F, S, A, R, W: StepTold> Play<F, CellView<S, A, R>> for PutsMark<W> {
    ghost use Rattle.npf_cells_returns.specs.MarkKinds.{MarksPlace};

    ghost then = { MarksPlace W.told.number };
}

pub(crate) struct ClearsPlace<W> {
    aim: PhantomData<W>,
}

impl<F, S, A, R, W: StepTold> Play<F, CellView<S, A, R>> for ClearsPlace<W> {
    ghost use Rattle.npf_cells_returns.specs.MarkKinds.{RegainsNode};

    ghost then = { RegainsNode W.told.place W.told.number };
}

pub(crate) struct FreesState<W> {
    aim: PhantomData<W>,
}

impl<F, S, A, R, W: StepTold> Play<F, CellView<S, A, R>> for FreesState<W> {
    ghost use Rattle.npf_cells_returns.specs.MarkKinds.{FreesNode};

    ghost then = { FreesNode W.told.number };
}

impl<L: Law, H: KeyHash> Cells<L, H> {
    ghost use Rattle.std.specs.Prelude.{◌≡◌, ◌<◌, ◌+◌, ◌/◌, ◌%◌, ◌^◌, Contains};
    ghost use Rattle.npf_paths.specs.Places.{lock_of};
    ghost use Rattle.npf_cells_words.specs.declared.layout.Pool.TheVariants.{Nodes};
    ghost use Rattle.npf_cells_words.specs.Layout.{field_at, parent_field, state_field};
    ghost use Rattle.npf_cells_words.specs.Places.{IsInTrie, place_at};
    ghost use Rattle.npf_cells_rule.specs.Stood.{StoodSo};
    ghost use Rattle.npf_cells_rule.specs.Views.{with_pools, with_trie};
    ghost use Rattle.npf_cells_returns.specs.LoadKinds.{loading_cell, loading_parent, loading_state};
    ghost use Rattle.npf_cells_returns.specs.MarkKinds.{MayClearMark, MayMarkNode, MayMarkPlace, freeing_node, marking, placing, regaining};
    ghost use Rattle.npf_cells.specs.Cells.{IsPassIn};

    /// Loads the word of a place of the trie whose lock the pass has, and makes no entry. A node that the pass finds empty is known to be so
    /// in this place too, where nothing stands there; and a mark says its node.
    pub fn load_cell(&self, pass: &mut CellPass<L>, place: Place) -> u64
        requires own { IsPassIn self.now pass.old }
        requires place { IsInTrie self.now.table.shared.key place }
        requires locked { Contains pass.old.seat.me.0.trie.locks (lock_of place) }
        ensures own { IsPassIn self.now pass.new }
        ensures next { pass.new.seat.me ≡ with_trie pass.old.seat.me (loading_cell place result pass.old.seat.me.0.trie) }
        ensures exists { result % 4 ≡ 3 → result / 4 < self.now.table.shared.key.nodes }
        ensures stood { StoodSo L.meaning H.digest self.now.table.shared.key pass.old.seat.me.0 (place_at self.now.table.shared.key place) result }
    {
        self.load_cell_as::<Brand>(pass, place)
    }

    fn load_cell_as<W: StepTold>(&self, pass: &mut CellPass<L>, place: Place) -> u64
        requires own { IsPassIn self.now pass.old }
        requires place { IsInTrie self.now.table.shared.key place }
        requires locked { Contains pass.old.seat.me.0.trie.locks (lock_of place) }
        requires aim { (W.told.layout ≡ self.now.table.shared.key) × (W.told.place ≡ place) }
        ensures own { IsPassIn self.now pass.new }
        ensures next { pass.new.seat.me ≡ with_trie pass.old.seat.me (loading_cell place result pass.old.seat.me.0.trie) }
        ensures exists { result % 4 ≡ 3 → result / 4 < self.now.table.shared.key.nodes }
        ensures stood { StoodSo L.meaning H.digest self.now.table.shared.key pass.old.seat.me.0 (place_at self.now.table.shared.key place) result }
    {
        let word = self.layout.trie_place(place);
        self.table
            .shared
            .load::<LoadsCellWord<L, H, W>>(&mut pass.seat, word)
    }

    /// Loads the parent word of a node: the number of the place where it hangs, or where its mark stands. Of a node that the pass finds empty
    /// it then knows that place.
    pub fn load_parent(&self, pass: &mut CellPass<L>, node: u32) -> u64
        requires own { IsPassIn self.now pass.old }
        requires exists { node < self.now.table.shared.key.nodes }
        ensures own { IsPassIn self.now pass.new }
        ensures next { pass.new.seat.me ≡ with_trie pass.old.seat.me (loading_parent node result pass.old.seat.me.0.trie) }
        ensures stood { StoodSo L.meaning H.digest self.now.table.shared.key pass.old.seat.me.0 (field_at self.now.table.shared.key Nodes node parent_field) result }
    {
        self.load_parent_as::<Brand>(pass, node)
    }

    fn load_parent_as<W: StepTold>(&self, pass: &mut CellPass<L>, node: u32) -> u64
        requires own { IsPassIn self.now pass.old }
        requires exists { node < self.now.table.shared.key.nodes }
        requires aim { (W.told.layout ≡ self.now.table.shared.key) × (W.told.number ≡ node) }
        ensures own { IsPassIn self.now pass.new }
        ensures next { pass.new.seat.me ≡ with_trie pass.old.seat.me (loading_parent node result pass.old.seat.me.0.trie) }
        ensures stood { StoodSo L.meaning H.digest self.now.table.shared.key pass.old.seat.me.0 (field_at self.now.table.shared.key Nodes node parent_field) result }
    {
        let word = self.layout.field_place(Pool::Nodes, node, PARENT);
        self.table
            .shared
            .load::<LoadsParentWord<L, H, W>>(&mut pass.seat, word)
    }

    /// Loads the state of a node: 0 where its lock is free, 1 where a pass has it, 2 where that pass marked it, and 2^63 and an epoch where it
    /// was let go with that. Of a mark that the pass met under its place's lock it then knows the epoch of its node.
    pub fn load_state(&self, pass: &mut CellPass<L>, node: u32) -> u64
        requires own { IsPassIn self.now pass.old }
        requires exists { node < self.now.table.shared.key.nodes }
        ensures own { IsPassIn self.now pass.new }
        ensures next { pass.new.seat.me ≡ with_trie pass.old.seat.me (loading_state node result pass.old.seat.me.0.trie) }
        ensures stood { StoodSo L.meaning H.digest self.now.table.shared.key pass.old.seat.me.0 (field_at self.now.table.shared.key Nodes node state_field) result }
    {
        self.load_state_as::<Brand>(pass, node)
    }

    fn load_state_as<W: StepTold>(&self, pass: &mut CellPass<L>, node: u32) -> u64
        requires own { IsPassIn self.now pass.old }
        requires exists { node < self.now.table.shared.key.nodes }
        requires aim { (W.told.layout ≡ self.now.table.shared.key) × (W.told.number ≡ node) }
        ensures own { IsPassIn self.now pass.new }
        ensures next { pass.new.seat.me ≡ with_trie pass.old.seat.me (loading_state node result pass.old.seat.me.0.trie) }
        ensures stood { StoodSo L.meaning H.digest self.now.table.shared.key pass.old.seat.me.0 (field_at self.now.table.shared.key Nodes node state_field) result }
    {
        let word = self.layout.field_place(Pool::Nodes, node, STATE);
        self.table
            .shared
            .load::<LoadsStateWord<L, H, W>>(&mut pass.seat, word)
    }

    /// Marks a node in none of whose places anything stands, as the pass found under the node's lock. The pass has that lock, and the lock of the
    /// place in which the node hangs.
    pub fn mark_node(&self, pass: &mut CellPass<L>, node: u32)
        requires own { IsPassIn self.now pass.old }
        requires exists { node < self.now.table.shared.key.nodes }
        requires may { MayMarkNode self.now.table.shared.key pass.old.seat.me.0 node }
        ensures own { IsPassIn self.now pass.new }
        ensures next { pass.new.seat.me ≡ with_trie pass.old.seat.me (marking pass.old.seat.me.0.trie) }
    {
        let word = self.layout.lock_place(Lock::Node(node));
        self.table
            .shared
            .store::<MarksState>(&mut pass.seat, word, MARKED);
    }

    /// Puts the mark of a node that the pass marked in the place where the node hangs, under the lock of that place. While the mark stands
    /// there, a walk that comes to the place ends. The pass forgets the epoch that it loaded with what it scanned since, and what it saw last in
    /// the trie.
    pub fn mark_place(&self, pass: &mut CellPass<L>, place: Place, node: u32)
        requires own { IsPassIn self.now pass.old }
        requires place { IsInTrie self.now.table.shared.key place }
        requires may { MayMarkPlace pass.old.seat.me.0 place node }
        ensures own { IsPassIn self.now pass.new }
        ensures next { pass.new.seat.me ≡ placing node pass.old.seat.me }
    {
        self.mark_place_as::<Brand>(pass, place, node);
    }

    fn mark_place_as<W: StepTold>(&self, pass: &mut CellPass<L>, place: Place, node: u32)
        requires own { IsPassIn self.now pass.old }
        requires place { IsInTrie self.now.table.shared.key place }
        requires may { MayMarkPlace pass.old.seat.me.0 place node }
        requires aim { W.told.number ≡ node }
        ensures own { IsPassIn self.now pass.new }
        ensures next { pass.new.seat.me ≡ placing node pass.old.seat.me }
    {
        let word = self.layout.trie_place(place);
        self.table
            .shared
            .store::<PutsMark<W>>(&mut pass.seat, word, mark_word(node));
    }

    /// Clears a mark that the pass met in the place under the place's lock. Its node was let go, and since then the epoch that the pass loaded
    /// last has risen by two at least, so nobody is in the node any more. The node is the pass's own from then on, once it has freed its state.
    pub fn clear_mark(&self, pass: &mut CellPass<L>, place: Place, node: u32)
        requires own { IsPassIn self.now pass.old }
        requires place { IsInTrie self.now.table.shared.key place }
        requires may { MayClearMark pass.old.seat.me.0 place node }
        ensures own { IsPassIn self.now pass.new }
        ensures next { pass.new.seat.me ≡ regaining place node pass.old.seat.me }
    {
        self.clear_mark_as::<Brand>(pass, place, node);
    }

    fn clear_mark_as<W: StepTold>(&self, pass: &mut CellPass<L>, place: Place, node: u32)
        requires own { IsPassIn self.now pass.old }
        requires place { IsInTrie self.now.table.shared.key place }
        requires may { MayClearMark pass.old.seat.me.0 place node }
        requires aim { (W.told.place ≡ place) × (W.told.number ≡ node) }
        ensures own { IsPassIn self.now pass.new }
        ensures next { pass.new.seat.me ≡ regaining place node pass.old.seat.me }
    {
        let word = self.layout.trie_place(place);
        self.table
            .shared
            .store::<ClearsPlace<W>>(&mut pass.seat, word, NOTHING);
    }

    /// Frees the state of a node that the pass got back by clearing its mark: the pass owns the node from then on.
    pub fn free_node(&self, pass: &mut CellPass<L>, node: u32)
        requires own { IsPassIn self.now pass.old }
        requires exists { node < self.now.table.shared.key.nodes }
        requires regained { Contains pass.old.seat.me.0.pools.unfreed node }
        ensures own { IsPassIn self.now pass.new }
        ensures next { pass.new.seat.me ≡ with_pools pass.old.seat.me (freeing_node node pass.old.seat.me.0.pools) }
    {
        self.free_node_as::<Brand>(pass, node);
    }

    fn free_node_as<W: StepTold>(&self, pass: &mut CellPass<L>, node: u32)
        requires own { IsPassIn self.now pass.old }
        requires exists { node < self.now.table.shared.key.nodes }
        requires regained { Contains pass.old.seat.me.0.pools.unfreed node }
        requires aim { W.told.number ≡ node }
        ensures own { IsPassIn self.now pass.new }
        ensures next { pass.new.seat.me ≡ with_pools pass.old.seat.me (freeing_node node pass.old.seat.me.0.pools) }
    {
        let word = self.layout.lock_place(Lock::Node(node));
        self.table
            .shared
            .store::<FreesState<W>>(&mut pass.seat, word, FREE);
    }
}

// The word of the mark of a node.
fn mark_word(node: u32) -> u64
    ensures { result ≡ mark_word node }
{
    u64::from(node) * 4 + 3
}
