// A place is loaded by who is to hold a key there.
ghost use Rattle.std.specs.Prelude.{◌≡◌};

use crate::cells::{CellPass, Cells};
use crate::rule::Running;
use crate::told::StepTold;
use atomic_table::Play;
use npf_cells_rule::CellView;
use npf_core::{ConnId, Law};
use npf_paths::{Cell, KeyHash, Place};
use npf_types::{Key, Way};
use std::marker::{Brand, PhantomData};

pub(crate) struct LoadsToHold<L: Law, H: KeyHash, W> {
    law: PhantomData<L>,
    hash: PhantomData<H>,
    aim: PhantomData<W>,
}

impl<L: Law, H: KeyHash, W: StepTold> Play<Running<L::State>, CellView<L::State, L::Arg, L::Reply>>
    for LoadsToHold<L, H, W> {
    ghost use Rattle.npf_cells_holds.specs.HoldKinds.{LoadsForHold};

    ghost then = { LoadsForHold L.meaning H.digest W.told.layout W.told.id W.told.key W.told.way W.told.place };
}

impl<L: Law, H: KeyHash> Cells<L, H> {
    ghost use Rattle.std.specs.Prelude.{◌≡◌};
    ghost use Rattle.npf_cells_holds.specs.HoldKinds.{MayHoldSo, HoldsAt};
    ghost use Rattle.npf_cells_holds.specs.LookKinds.{StandsOnPath};
    ghost use Rattle.npf_cells.specs.Cells.{IsPassIn};
    ghost use Rattle.npf_cells_rule.specs.Passes.{IsProtected};
    ghost use Rattle.npf_cells_words.specs.Places.{IsInTrie};

    // Loads a place of the path of a key that is to be held.
    pub(crate) fn hold_place<W: StepTold>(
        &self,
        pass: &mut CellPass<L>,
        place: Place,
        id: ConnId,
        key: &Key,
        way: Way,
    ) -> Cell
        requires own { IsPassIn self.now pass.old }
        requires place { IsInTrie self.now.table.shared.key place }
        requires protected { IsProtected pass.old.seat.me.0.epochs.pin }
        requires stands { StandsOnPath H.digest pass.old.seat.me.0.trie key.now place }
        requires may { MayHoldSo L.meaning pass.old.seat.me.0 id way }
        requires aim { (W.told.layout ≡ self.now.table.shared.key) × (W.told.id ≡ id) × (W.told.key ≡ key.now) × (W.told.way ≡ way) × (W.told.place ≡ place) }
        ensures own { IsPassIn self.now pass.new }
        ensures holds { HoldsAt L.meaning H.digest self.now.table.shared.key id key.now way place result pass.old.seat.me pass.new.seat.me }
    {
        let word = self.layout.trie_place(place);
        let found = self
            .table
            .shared
            .load::<LoadsToHold<L, H, W>>(&mut pass.seat, word);
        Cell::of_word(found)
    }
}
