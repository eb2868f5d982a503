// Words that only their owner writes: a slot's incarnation, its own words, its notes.
ghost use Rattle.std.specs.Prelude.{◌≡◌};

use crate::cells::{CellPass, Cells};
use crate::rule::Running;
use crate::told::StepTold;
use atomic_table::Play;
use npf_cells_rule::CellView;
use npf_cells_words::{INCARNATION, Pool, note_field};
use npf_core::Law;
use npf_paths::KeyHash;
use npf_types::Way;
use std::marker::{Brand, PhantomData};

pub(crate) struct LoadsIncarnation<W> {
    aim: PhantomData<W>,
}

impl<F, S, A, R, W: StepTold> Play<F, CellView<S, A, R>> for LoadsIncarnation<W> {
    ghost use Rattle.npf_cells_takes.specs.PrivateKinds.{LoadsInc};

    ghost then = { LoadsInc W.told.number };
}

pub(crate) struct StoresInOwn<L: Law, H: KeyHash, W> {
    law: PhantomData<L>,
    hash: PhantomData<H>,
    aim: PhantomData<W>,
}

impl<L: Law, H: KeyHash, W: StepTold> Play<Running<L::State>, CellView<L::State, L::Arg, L::Reply>>
    for StoresInOwn<L, H, W> {
    ghost use Rattle.npf_cells_takes.specs.PrivateKinds.{StoresPrivate};

    ghost then = { StoresPrivate L.meaning H.digest W.told.layout W.told.pool W.told.number W.told.field };
}

pub(crate) struct StoresInNote<W> {
    aim: PhantomData<W>,
}

impl<F, S, A, R, W: StepTold> Play<F, CellView<S, A, R>> for StoresInNote<W> {
    ghost use Rattle.npf_cells_takes.specs.PrivateKinds.{StoresAhead};

    ghost then = { StoresAhead W.told.way };
}

impl<L: Law, H: KeyHash> Cells<L, H> {
    ghost use Rattle.std.specs.Prelude.{◌≡◌, ◌<◌, ◌⊎◌};
    ghost use Rattle.npf_cells_lives.specs.Conns.{IsBuiltIn};
    ghost use Rattle.npf_cells_words.specs.Layout.{field_count, pool_places};
    ghost use Rattle.npf_cells.specs.Cells.{IsPassIn};
    ghost use Rattle.npf_cells_takes.specs.PrivateKinds.{ShowsInc, ShowsLeafInc, ShowsTurnInc, HasLeafIn, HasTurnIn, MayStore, MayStoreAhead, leading, stored_in};
    ghost use Rattle.npf_cells_words.specs.Layout.{note_field};

    /// Loads the incarnation of a slot in which the pass is building a connection, of the leaf that it loaded last, or of the Live or Dead
    /// connection whose turn it has: that connection's, or the one before it where the pass that is building it hasn't stored it yet.
    pub fn load_inc(&self, pass: &mut CellPass<L>, slot: u32) -> u64
        requires own { IsPassIn self.now pass.old }
        requires slot { slot < self.now.table.shared.key.slots }
        requires fixed { IsBuiltIn pass.old.seat.me.0.pools.builds slot ⊎ HasLeafIn pass.old.seat.me.0.trie slot ⊎ HasTurnIn pass.old.seat.me.0.turn slot }
        ensures own { IsPassIn self.now pass.new }
        ensures same { pass.new.seat.me ≡ pass.old.seat.me }
        ensures shows { ShowsInc pass.old.seat.me.0.pools slot result }
        ensures leaf { ShowsLeafInc pass.old.seat.me.0.trie slot result }
        ensures turn { ShowsTurnInc pass.old.seat.me.0.turn slot result }
    {
        self.load_inc_as::<Brand>(pass, slot)
    }

    fn load_inc_as<W: StepTold>(&self, pass: &mut CellPass<L>, slot: u32) -> u64
        requires own { IsPassIn self.now pass.old }
        requires slot { slot < self.now.table.shared.key.slots }
        requires aim { W.told.number ≡ slot }
        ensures own { IsPassIn self.now pass.new }
        ensures same { pass.new.seat.me ≡ pass.old.seat.me }
        ensures shows { ShowsInc pass.old.seat.me.0.pools slot result }
        ensures leaf { ShowsLeafInc pass.old.seat.me.0.trie slot result }
        ensures turn { ShowsTurnInc pass.old.seat.me.0.turn slot result }
    {
        let word = self.layout.field_place(Pool::Slots, slot, INCARNATION);
        self.table
            .shared
            .load::<LoadsIncarnation<W>>(&mut pass.seat, word)
    }

    /// Stores in a word of a node that the pass owns, but never in its state; or in a word of a connection that it is building, but
    /// never in its turn or its phase, as incarnation that connection's own alone, and in the words of a key, and in a note, only while it
    /// holds none of that way, and in a note below 2^63; or in the phase of a connection whose turn the pass has; or, in the first note of a
    /// connection that the pass killed and that holds no key, the epoch that it loaded since it last killed any, plus 2^63: so it lets the
    /// connection go. The fields are those of docs/ARCHITECTURE.md, counted from 0.
    pub fn store_private(
        &self,
        pass: &mut CellPass<L>,
        pool: Pool,
        place: u32,
        field: u32,
        value: u64,
    )
        requires own { IsPassIn self.now pass.old }
        requires place { place < pool_places self.now.table.shared.key pool }
        requires field { field < field_count pool }
        requires may { MayStore L.meaning pass.old.seat.me.0 pool place field value }
        ensures own { IsPassIn self.now pass.new }
        ensures next { pass.new.seat.me ≡ stored_in pool place field value pass.old.seat.me }
    {
        self.store_private_as::<Brand>(pass, pool, place, field, value);
    }

    fn store_private_as<W: StepTold>(
        &self,
        pass: &mut CellPass<L>,
        pool: Pool,
        place: u32,
        field: u32,
        value: u64,
    )
        requires own { IsPassIn self.now pass.old }
        requires place { place < pool_places self.now.table.shared.key pool }
        requires field { field < field_count pool }
        requires may { MayStore L.meaning pass.old.seat.me.0 pool place field value }
        requires aim { (W.told.layout ≡ self.now.table.shared.key) × (W.told.pool ≡ pool) × (W.told.number ≡ place) × (W.told.field ≡ field) }
        ensures own { IsPassIn self.now pass.new }
        ensures next { pass.new.seat.me ≡ stored_in pool place field value pass.old.seat.me }
    {
        let word = self.layout.field_place(pool, place, field);
        self.table
            .shared
            .store::<StoresInOwn<L, H, W>>(&mut pass.seat, word, value);
    }

    /// Stores in the note of a leaf the number of the place to which the pass is about to move it, under the turn of the leaf's slot and the
    /// lock of the place where it stands.
    pub fn note_ahead(&self, pass: &mut CellPass<L>, slot: u32, way: Way, value: u64)
        requires own { IsPassIn self.now pass.old }
        requires slot { slot < self.now.table.shared.key.slots }
        requires may { MayStoreAhead pass.old.seat.me.0 slot way value }
        ensures own { IsPassIn self.now pass.new }
        ensures next { pass.new.seat.me ≡ leading (note_field way) value pass.old.seat.me }
    {
        self.note_ahead_as::<Brand>(pass, slot, way, value);
    }

    fn note_ahead_as<W: StepTold>(&self, pass: &mut CellPass<L>, slot: u32, way: Way, value: u64)
        requires own { IsPassIn self.now pass.old }
        requires slot { slot < self.now.table.shared.key.slots }
        requires may { MayStoreAhead pass.old.seat.me.0 slot way value }
        requires aim { W.told.way ≡ way }
        ensures own { IsPassIn self.now pass.new }
        ensures next { pass.new.seat.me ≡ leading (note_field way) value pass.old.seat.me }
    {
        let word = self.layout.field_place(Pool::Slots, slot, note_field(way));
        self.table
            .shared
            .store::<StoresInNote<W>>(&mut pass.seat, word, value);
    }
}
