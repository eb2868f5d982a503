// A key is published at a place, or a place is stored as it was.
ghost use Rattle.std.specs.Prelude.{◌≡◌};

use crate::cells::{CellPass, Cells};
use crate::rule::Running;
use crate::told::StepTold;
use atomic_table::Play;
use npf_cells_holds::Aim;
use npf_cells_rule::CellView;
use npf_core::{ConnId, Law};
use npf_paths::{Cell, KeyHash, Place};
use npf_types::{Key, Way};
use std::marker::{Brand, PhantomData};

pub(crate) struct PublishesKey<L: Law, H: KeyHash, W> {
    law: PhantomData<L>,
    hash: PhantomData<H>,
    aim: PhantomData<W>,
}

impl<L: Law, H: KeyHash, W: StepTold> Play<Running<L::State>, CellView<L::State, L::Arg, L::Reply>>
    for PublishesKey<L, H, W> {
    ghost use Rattle.npf_cells_holds.specs.PublishKinds.{PublishesFor};

    ghost then = { PublishesFor L.meaning H.digest W.told.layout W.told.id W.told.key W.told.way W.told.place W.told.cell };
}

/// A store of what stands in a place.
pub(crate) struct StoresSame;

impl<F, S, A, R> Play<F, CellView<S, A, R>> for StoresSame {
    ghost use Rattle.npf_cells_holds.specs.PublishKinds.{StoresAgain};

    ghost then = { StoresAgain };
}

impl<L: Law, H: KeyHash> Cells<L, H> {
    ghost use Rattle.std.specs.Prelude.{◌≡◌, ◌≢◌};
    ghost use Rattle.npf_cells_rule.specs.Views.{with_trie};
    ghost use Rattle.npf_paths.specs.declared.cell.Cell.TheVariants.{Mark};
    ghost use Rattle.npf_paths.specs.Paths.{IsEnd};
    ghost use Rattle.npf_cells.specs.Cells.{IsPassIn};
    ghost use Rattle.npf_cells_rule.specs.Passes.{IsProtected};
    ghost use Rattle.npf_cells_holds.specs.PublishKinds.{aim_now, IsUnmarkedPlace, MayPublish, MayPublishFor, Published, HasHeld, publishing};
    ghost use Rattle.npf_cells_leaves.specs.Sights.{SeesLocked};
    ghost use Rattle.npf_cells_words.specs.Places.{IsInTrie};

    /// Stores in a place of the trie whose lock the pass has, and which it loaded since it got it. To hold a key, the connection's leaf goes
    /// where nothing stands; where the leaf of another key does, new nodes go there that lead on to both, one a level, down to and with
    /// the one at which the keys part. Without an aim what stands there is stored again.
    pub fn publish_place(&self, pass: &mut CellPass<L>, place: Place, cell: Cell, aim: Option<&Aim>)
        requires own { IsPassIn self.now pass.old }
        requires place { IsInTrie self.now.table.shared.key place }
        requires protected { IsProtected pass.old.seat.me.0.epochs.pin }
        requires may { MayPublish L.meaning H.digest self.now.table.shared.key pass.old.seat.me.0 place cell (aim_now aim) }
        ensures own { IsPassIn self.now pass.new }
        ensures published { Published L.meaning H.digest self.now.table.shared.key place cell (aim_now aim.entry) pass.old.seat.me pass.new.seat.me }
    {
        match aim {
            Some(Aim::Hold { id, key, way }) => {
                self.publish_key::<Brand>(pass, place, cell, *id, key, *way)
            }
            _ => self.publish_same(pass, place, cell),
        }
    }

    fn publish_same(&self, pass: &mut CellPass<L>, place: Place, cell: Cell)
        requires own { IsPassIn self.now pass.old }
        requires place { IsInTrie self.now.table.shared.key place }
        requires sees { SeesLocked pass.old.seat.me.0.trie place cell }
        requires end { IsEnd cell }
        requires real { cell ≢ Mark }
        requires unmarked { IsUnmarkedPlace pass.old.seat.me.0.trie.marks place }
        ensures own { IsPassIn self.now pass.new }
        ensures next { pass.new.seat.me ≡ with_trie pass.old.seat.me (publishing pass.old.seat.me.0.trie) }
    {
        let word = self.layout.trie_place(place);
        self.table
            .shared
            .store::<StoresSame>(&mut pass.seat, word, cell.word());
    }

    fn publish_key<W: StepTold>(
        &self,
        pass: &mut CellPass<L>,
        place: Place,
        cell: Cell,
        id: ConnId,
        key: &Key,
        way: Way,
    )
        requires own { IsPassIn self.now pass.old }
        requires place { IsInTrie self.now.table.shared.key place }
        requires protected { IsProtected pass.old.seat.me.0.epochs.pin }
        requires may { MayPublishFor L.meaning H.digest self.now.table.shared.key pass.old.seat.me.0 id key.now way place cell }
        requires aim { (W.told.layout ≡ self.now.table.shared.key) × (W.told.id ≡ id) × (W.told.key ≡ key.now) × (W.told.way ≡ way) × (W.told.place ≡ place) × (W.told.cell ≡ cell) }
        ensures own { IsPassIn self.now pass.new }
        ensures held { HasHeld L.meaning H.digest self.now.table.shared.key id key.now way place cell pass.old.seat.me pass.new.seat.me }
    {
        let word = self.layout.trie_place(place);
        self.table
            .shared
            .store::<PublishesKey<L, H, W>>(&mut pass.seat, word, cell.word());
    }
}
