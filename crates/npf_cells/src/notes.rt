// The word of a note is loaded.
ghost use Rattle.std.specs.Prelude.{◌≡◌};

use crate::cells::{CellPass, Cells};
use crate::rule::Running;
use crate::told::StepTold;
use atomic_table::Play;
use npf_cells_rule::CellView;
use npf_cells_words::{Pool, note_field};
use npf_core::Law;
use npf_paths::KeyHash;
use npf_types::Way;
use std::marker::{Brand, PhantomData};

pub(crate) struct LoadsNoteWord<L: Law, H: KeyHash, W> {
    law: PhantomData<L>,
    hash: PhantomData<H>,
    aim: PhantomData<W>,
}

impl<L: Law, H: KeyHash, W: StepTold> Play<Running<L::State>, CellView<L::State, L::Arg, L::Reply>>
    for LoadsNoteWord<L, H, W> {
    ghost use Rattle.npf_cells_turns.specs.NoteKinds.{LoadsNote};

    ghost then = { LoadsNote L.meaning H.digest W.told.layout W.told.number W.told.way };
}

impl<L: Law, H: KeyHash> Cells<L, H> {
    ghost use Rattle.std.specs.Prelude.{◌≡◌, ◌<◌};
    ghost use Rattle.npf_cells_words.specs.declared.layout.Pool.TheVariants.{Slots};
    ghost use Rattle.npf_cells_words.specs.Layout.{note_field, field_at};
    ghost use Rattle.npf_cells.specs.Cells.{IsPassIn};
    ghost use Rattle.npf_cells_rule.specs.Stood.{StoodSo};
    ghost use Rattle.npf_cells_turns.specs.NoteKinds.{ShowsKill, noting};
    ghost use Rattle.npf_cells_turns.specs.TurnKinds.{HasSlotTurn};
    ghost use Rattle.npf_cells_turns.specs.WordKinds.{ShowsByTurn, ShowsNote};

    /// Loads the note of a way of a slot whose turn the pass has, which then knows what the note said. That of a connection that the pass
    /// killed, of a way of which it hasn't given the key up, is 0 exactly where it holds no key of that way, and else the number of the place
    /// where the key's leaf stands.
    pub fn load_note(&self, pass: &mut CellPass<L>, slot: u32, way: Way) -> u64
        requires own { IsPassIn self.now pass.old }
        requires slot { slot < self.now.table.shared.key.slots }
        requires turn { HasSlotTurn pass.old.seat.me.0 slot }
        ensures own { IsPassIn self.now pass.new }
        ensures next { pass.new.seat.me ≡ noting (note_field way) result pass.old.seat.me }
        ensures noted { ShowsNote pass.old.seat.me.0.pools.notes Slots slot (note_field way) result }
        ensures by_turn { ShowsByTurn L.meaning H.digest self.now.table.shared.key pass.old.seat.me.0 Slots slot (note_field way) result }
        ensures by_kill { ShowsKill L.meaning self.now.table.shared.key pass.old.seat.me.0 slot way result }
        ensures stood { StoodSo L.meaning H.digest self.now.table.shared.key pass.old.seat.me.0 (field_at self.now.table.shared.key Slots slot (note_field way)) result }
    {
        self.load_note_as::<Brand>(pass, slot, way)
    }

    fn load_note_as<W: StepTold>(&self, pass: &mut CellPass<L>, slot: u32, way: Way) -> u64
        requires own { IsPassIn self.now pass.old }
        requires slot { slot < self.now.table.shared.key.slots }
        requires turn { HasSlotTurn pass.old.seat.me.0 slot }
        requires aim { (W.told.layout ≡ self.now.table.shared.key) × (W.told.number ≡ slot) × (W.told.way ≡ way) }
        ensures own { IsPassIn self.now pass.new }
        ensures next { pass.new.seat.me ≡ noting (note_field way) result pass.old.seat.me }
        ensures noted { ShowsNote pass.old.seat.me.0.pools.notes Slots slot (note_field way) result }
        ensures by_turn { ShowsByTurn L.meaning H.digest self.now.table.shared.key pass.old.seat.me.0 Slots slot (note_field way) result }
        ensures by_kill { ShowsKill L.meaning self.now.table.shared.key pass.old.seat.me.0 slot way result }
        ensures stood { StoodSo L.meaning H.digest self.now.table.shared.key pass.old.seat.me.0 (field_at self.now.table.shared.key Slots slot (note_field way)) result }
    {
        let word = self.layout.field_place(Pool::Slots, slot, note_field(way));
        self.table
            .shared
            .load::<LoadsNoteWord<L, H, W>>(&mut pass.seat, word)
    }
}
