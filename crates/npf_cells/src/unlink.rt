// A key is taken off its place.
ghost use Rattle.std.specs.Prelude.{◌≡◌};

use crate::cells::{CellPass, Cells};
use crate::rule::Running;
use crate::told::StepTold;
use atomic_table::Play;
use npf_cells_rule::CellView;
use npf_core::{ConnId, Law};
use npf_paths::{KeyHash, Place};
use npf_types::Way;
use std::marker::{Brand, PhantomData};

/// The word of a place where nothing stands.
const NOTHING: u64 = 0;

pub(crate) struct UnlinksLeaf<L: Law, W> {
    law: PhantomData<L>,
    aim: PhantomData<W>,
}

impl<L: Law, W: StepTold> Play<Running<L::State>, CellView<L::State, L::Arg, L::Reply>>
    for UnlinksLeaf<L, W> {
    ghost use Rattle.npf_cells_holds.specs.UnlinkKinds.{Unlinks};

    ghost then = { Unlinks L.meaning W.told.id W.told.way W.told.place };
}

impl<L: Law, H: KeyHash> Cells<L, H> {
    ghost use Rattle.std.specs.Prelude.{◌≡◌};
    ghost use Rattle.npf_cells.specs.Cells.{IsPassIn};
    ghost use Rattle.npf_cells_holds.specs.UnlinkKinds.{MayUnlink, HasUnlinked};
    ghost use Rattle.npf_cells_words.specs.Places.{IsInTrie};

    /// Empties a place of the trie, by which a connection that the pass killed gives up its key of that way. The pass has the connection's
    /// turn, under which it loaded the way's note, and the lock of the place that the note named. So the connection's leaf stands there.
    pub fn unlink(&self, pass: &mut CellPass<L>, place: Place, id: ConnId, way: Way)
        requires own { IsPassIn self.now pass.old }
        requires place { IsInTrie self.now.table.shared.key place }
        requires may { MayUnlink pass.old.seat.me.0 place id way }
        ensures own { IsPassIn self.now pass.new }
        ensures unlinked { HasUnlinked L.meaning id way place pass.old.seat.me pass.new.seat.me }
    {
        self.unlink_as::<Brand>(pass, place, id, way)
    }

    fn unlink_as<W: StepTold>(&self, pass: &mut CellPass<L>, place: Place, id: ConnId, way: Way)
        requires own { IsPassIn self.now pass.old }
        requires place { IsInTrie self.now.table.shared.key place }
        requires may { MayUnlink pass.old.seat.me.0 place id way }
        requires aim { (W.told.id ≡ id) × (W.told.way ≡ way) × (W.told.place ≡ place) }
        ensures own { IsPassIn self.now pass.new }
        ensures unlinked { HasUnlinked L.meaning id way place pass.old.seat.me pass.new.seat.me }
    {
        let word = self.layout.trie_place(place);
        self.table
            .shared
            .store::<UnlinksLeaf<L, W>>(&mut pass.seat, word, NOTHING);
    }
}
