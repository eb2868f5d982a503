// A connection is freed, and the notes of epochs are cleared.
ghost use Rattle.std.specs.Prelude.{◌≡◌};

use crate::cells::{CellPass, Cells};
use crate::pools::place_bit;
use crate::rule::Running;
use crate::told::StepTold;
use atomic_table::Play;
use npf_cells_rule::CellView;
use npf_cells_words::{Pool, note_field};
use npf_core::{ConnId, Law};
use npf_paths::KeyHash;
use npf_types::Way;
use std::marker::{Brand, PhantomData};

pub(crate) struct ClearsEpoch<W> {
    aim: PhantomData<W>,
}

impl<F, S, A, R, W: StepTold> Play<F, CellView<S, A, R>> for ClearsEpoch<W> {
    ghost use Rattle.npf_cells_takes.specs.PrivateKinds.{ClearsNote};

    ghost then = { ClearsNote W.told.id };
}

pub(crate) struct FreesConnection<L: Law, H: KeyHash, W> {
    law: PhantomData<L>,
    hash: PhantomData<H>,
    aim: PhantomData<W>,
}

impl<L: Law, H: KeyHash, W: StepTold> Play<Running<L::State>, CellView<L::State, L::Arg, L::Reply>>
    for FreesConnection<L, H, W> {
    ghost use Rattle.npf_cells_takes.specs.SlotKinds.{FreesSlot};

    ghost then = { FreesSlot L.meaning H.digest W.told.layout W.told.id };
}

impl<L: Law, H: KeyHash> Cells<L, H> {
    ghost use Rattle.std.specs.Prelude.{◌≡◌, ◌<◌};
    ghost use Rattle.npf_cells_words.specs.declared.layout.Pool.TheVariants.{Slots};
    ghost use Rattle.npf_cells_words.specs.Layout.{place_word};
    ghost use Rattle.npf_cells_rule.specs.Stood.{StoodSo};
    ghost use Rattle.npf_cells_rule.specs.Views.{with_pools};
    ghost use Rattle.npf_cells_takes.specs.PrivateKinds.{MayClear, clearing};
    ghost use Rattle.npf_cells_takes.specs.SlotKinds.{HasFreed, MayGiveBack};
    ghost use Rattle.npf_cells.specs.Cells.{IsPassIn};

    /// Sets the first note of a connection to 0 that the pass reclaimed.
    pub fn clear_note(&self, pass: &mut CellPass<L>, id: ConnId)
        requires own { IsPassIn self.now pass.old }
        requires slot { id.slot < self.now.table.shared.key.slots }
        requires may { MayClear pass.old.seat.me.0 id }
        ensures own { IsPassIn self.now pass.new }
        ensures next { pass.new.seat.me ≡ with_pools pass.old.seat.me (clearing id pass.old.seat.me.0.pools) }
    {
        self.clear_note_as::<Brand>(pass, id);
    }

    fn clear_note_as<W: StepTold>(&self, pass: &mut CellPass<L>, id: ConnId)
        requires own { IsPassIn self.now pass.old }
        requires slot { id.slot < self.now.table.shared.key.slots }
        requires may { MayClear pass.old.seat.me.0 id }
        requires aim { W.told.id ≡ id }
        ensures own { IsPassIn self.now pass.new }
        ensures next { pass.new.seat.me ≡ with_pools pass.old.seat.me (clearing id pass.old.seat.me.0.pools) }
    {
        let word = self
            .layout
            .field_place(Pool::Slots, id.slot, note_field(Way::Forward));
        self.table
            .shared
            .store::<ClearsEpoch<W>>(&mut pass.seat, word, 0);
    }

    /// Gives the slot of a connection back that the pass reclaimed, and whose first note it has set to 0 since; but not that of the last
    /// incarnation that there can be. It makes the Free, with which the pass's history ends.
    pub fn free_slot(&self, pass: &mut CellPass<L>, id: ConnId)
        requires own { IsPassIn self.now pass.old }
        requires slot { id.slot < self.now.table.shared.key.slots }
        requires may { MayGiveBack pass.old.seat.me.0 id }
        ensures own { IsPassIn self.now pass.new }
        ensures frees { HasFreed L.meaning id pass.new.seat.me.0.pools.found pass.old.seat.me pass.new.seat.me }
        ensures stood { StoodSo L.meaning H.digest self.now.table.shared.key pass.old.seat.me.0 (place_word self.now.table.shared.key Slots id.slot) pass.new.seat.me.0.pools.found }
    {
        self.free_slot_as::<Brand>(pass, id);
    }

    fn free_slot_as<W: StepTold>(&self, pass: &mut CellPass<L>, id: ConnId)
        requires own { IsPassIn self.now pass.old }
        requires slot { id.slot < self.now.table.shared.key.slots }
        requires may { MayGiveBack pass.old.seat.me.0 id }
        requires aim { (W.told.layout ≡ self.now.table.shared.key) × (W.told.id ≡ id) }
        ensures own { IsPassIn self.now pass.new }
        ensures frees { HasFreed L.meaning id pass.new.seat.me.0.pools.found pass.old.seat.me pass.new.seat.me }
        ensures stood { StoodSo L.meaning H.digest self.now.table.shared.key pass.old.seat.me.0 (place_word self.now.table.shared.key Slots id.slot) pass.new.seat.me.0.pools.found }
    {
        let word = self.layout.pool_place(Pool::Slots, id.slot / 64);
        self.table
            .shared
            .fetch_and::<FreesConnection<L, H, W>>(&mut pass.seat, word, !place_bit(id.slot));
    }
}
