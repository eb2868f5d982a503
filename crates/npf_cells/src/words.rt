// A field of a slot is loaded.
ghost use Rattle.std.specs.Prelude.{◌≡◌};

use crate::cells::{CellPass, Cells};
use crate::rule::Running;
use crate::told::StepTold;
use atomic_table::Play;
use npf_cells_rule::CellView;
use npf_cells_words::Pool;
use npf_core::Law;
use npf_paths::KeyHash;
use std::marker::{Brand, PhantomData};

pub(crate) struct LoadsField<L: Law, H: KeyHash, W> {
    law: PhantomData<L>,
    hash: PhantomData<H>,
    aim: PhantomData<W>,
}

impl<L: Law, H: KeyHash, W: StepTold> Play<Running<L::State>, CellView<L::State, L::Arg, L::Reply>>
    for LoadsField<L, H, W> {
    ghost use Rattle.npf_cells_turns.specs.WordKinds.{LoadsWord};

    ghost then = { LoadsWord L.meaning H.digest W.told.layout W.told.pool W.told.number W.told.field };
}

impl<L: Law, H: KeyHash> Cells<L, H> {
    ghost use Rattle.std.specs.Prelude.{◌≡◌, ◌<◌};
    ghost use Rattle.npf_cells_words.specs.Layout.{field_at, pool_places};
    ghost use Rattle.npf_cells.specs.Cells.{IsPassIn};
    ghost use Rattle.npf_cells_rule.specs.Stood.{StoodSo};
    ghost use Rattle.npf_cells_turns.specs.WordKinds.{IsLoadField, ShowsByTurn, ShowsNote, ShowsPhase, ShowsStored};

    /// Loads the state or the parent of a node, or the phase or a note of a connection: what the pass stored there, where it did; the phase
    /// that a turn knows, to who has it; and a note of a Live connection, to who has its slot's turn, is 0 exactly where no key of its way is
    /// held, and else names the key's place. The fields are those of docs/ARCHITECTURE.md, counted from 0.
    pub fn load_word(&self, pass: &mut CellPass<L>, pool: Pool, place: u32, field: u32) -> u64
        requires own { IsPassIn self.now pass.old }
        requires place { place < pool_places self.now.table.shared.key pool }
        requires field { IsLoadField pool field }
        ensures own { IsPassIn self.now pass.new }
        ensures same { pass.new.seat.me ≡ pass.old.seat.me }
        ensures stored { ShowsStored self.now.table.shared.key pass.old.seat.me.0.pools.stored pool place field result }
        ensures noted { ShowsNote pass.old.seat.me.0.pools.notes pool place field result }
        ensures phase { ShowsPhase pass.old.seat.me.0.turn pool place field result }
        ensures by_turn { ShowsByTurn L.meaning H.digest self.now.table.shared.key pass.old.seat.me.0 pool place field result }
        ensures stood { StoodSo L.meaning H.digest self.now.table.shared.key pass.old.seat.me.0 (field_at self.now.table.shared.key pool place field) result }
    {
        self.load_word_as::<Brand>(pass, pool, place, field)
    }

    fn load_word_as<W: StepTold>(
        &self,
        pass: &mut CellPass<L>,
        pool: Pool,
        place: u32,
        field: u32,
    ) -> u64
        requires own { IsPassIn self.now pass.old }
        requires place { place < pool_places self.now.table.shared.key pool }
        requires field { IsLoadField pool field }
        requires aim { (W.told.layout ≡ self.now.table.shared.key) × (W.told.pool ≡ pool) × (W.told.number ≡ place) × (W.told.field ≡ field) }
        ensures own { IsPassIn self.now pass.new }
        ensures same { pass.new.seat.me ≡ pass.old.seat.me }
        ensures stored { ShowsStored self.now.table.shared.key pass.old.seat.me.0.pools.stored pool place field result }
        ensures noted { ShowsNote pass.old.seat.me.0.pools.notes pool place field result }
        ensures phase { ShowsPhase pass.old.seat.me.0.turn pool place field result }
        ensures by_turn { ShowsByTurn L.meaning H.digest self.now.table.shared.key pass.old.seat.me.0 pool place field result }
        ensures stood { StoodSo L.meaning H.digest self.now.table.shared.key pass.old.seat.me.0 (field_at self.now.table.shared.key pool place field) result }
    {
        let word = self.layout.field_place(pool, place, field);
        self.table
            .shared
            .load::<LoadsField<L, H, W>>(&mut pass.seat, word)
    }
}
