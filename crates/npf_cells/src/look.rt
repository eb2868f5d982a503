// A place and a leaf's key are loaded by who looks for a key.
ghost use Rattle.std.specs.Prelude.{◌≡◌};

use crate::cells::{CellPass, Cells};
use crate::rule::Running;
use crate::told::StepTold;
use atomic_table::Play;
use npf_cells_holds::Aim;
use npf_cells_rule::CellView;
use npf_cells_words::{Pool, key_field};
use npf_core::Law;
use npf_paths::{Cell, KeyHash, Place};
use npf_types::{Key, Way};
use std::marker::{Brand, PhantomData};

pub(crate) struct LooksAtPlace<L: Law, H: KeyHash, W> {
    law: PhantomData<L>,
    hash: PhantomData<H>,
    aim: PhantomData<W>,
}

impl<L: Law, H: KeyHash, W: StepTold> Play<Running<L::State>, CellView<L::State, L::Arg, L::Reply>>
    for LooksAtPlace<L, H, W> {
    ghost use Rattle.npf_cells_holds.specs.LookKinds.{LoadsPlace};

    ghost then = { LoadsPlace L.meaning H.digest W.told.layout W.told.packet W.told.key W.told.place };
}

pub(crate) struct LoadsKeyWord<L: Law, H: KeyHash, W> {
    law: PhantomData<L>,
    hash: PhantomData<H>,
    aim: PhantomData<W>,
}

impl<L: Law, H: KeyHash, W: StepTold> Play<Running<L::State>, CellView<L::State, L::Arg, L::Reply>>
    for LoadsKeyWord<L, H, W> {
    ghost use Rattle.npf_cells_holds.specs.LookKinds.{LoadsKey};

    ghost then = { LoadsKey L.meaning H.digest W.told.layout W.told.number W.told.way W.told.word };
}

impl<L: Law, H: KeyHash> Cells<L, H> {
    ghost use Rattle.std.specs.Prelude.{◌≡◌, ◌<◌, ◌⊎◌};
    ghost use Rattle.npf_cells_lives.specs.Conns.{IsBuiltIn};
    ghost use Rattle.npf_cells_holds.specs.Aims.{MayAim, TellsAim, aim_key};
    ghost use Rattle.npf_cells_holds.specs.LookKinds.{StandsOnPath, LooksAt, IsLeafOf, HasLiveTurn, ShowsKey, ShowsStoredKey, TellsHeldKey, reading};
    ghost use Rattle.npf_cells_rule.specs.Views.{with_trie};
    ghost use Rattle.npf_cells.specs.Cells.{IsPassIn};
    ghost use Rattle.npf_cells_rule.specs.Passes.{IsProtected};
    ghost use Rattle.npf_cells_words.specs.Places.{IsInTrie};

    /// Loads a place of the trie that is on the key's path, where the pass stands there. A node leads on. To look, any other cell is the
    /// end, and its answer from this load on. To hold, the leaf of the same key is the end.
    pub fn load_place(&self, pass: &mut CellPass<L>, place: Place, aim: &Aim) -> Cell
        requires own { IsPassIn self.now pass.old }
        requires place { IsInTrie self.now.table.shared.key place }
        requires protected { IsProtected pass.old.seat.me.0.epochs.pin }
        requires stands { StandsOnPath H.digest pass.old.seat.me.0.trie (aim_key aim.now) place }
        requires aim { MayAim L.meaning pass.old.seat.me.0 aim.now }
        ensures own { IsPassIn self.now pass.new }
        ensures tells { TellsAim L.meaning H.digest self.now.table.shared.key aim.now place result pass.old.seat.me pass.new.seat.me }
    {
        match aim {
            Aim::Look { n, key } => self.look_place::<Brand>(pass, place, *n, key),
            Aim::Hold { id, key, way } => self.hold_place::<Brand>(pass, place, *id, key, *way),
        }
    }

    fn look_place<W: StepTold>(
        &self,
        pass: &mut CellPass<L>,
        place: Place,
        n: u64,
        key: &Key,
    ) -> Cell
        requires own { IsPassIn self.now pass.old }
        requires place { IsInTrie self.now.table.shared.key place }
        requires protected { IsProtected pass.old.seat.me.0.epochs.pin }
        requires stands { StandsOnPath H.digest pass.old.seat.me.0.trie key.now place }
        requires aim { (W.told.layout ≡ self.now.table.shared.key) × (W.told.packet ≡ n) × (W.told.key ≡ key.now) × (W.told.place ≡ place) }
        ensures own { IsPassIn self.now pass.new }
        ensures looks { LooksAt L.meaning H.digest self.now.table.shared.key n key.now place result pass.old.seat.me pass.new.seat.me }
    {
        let word = self.layout.trie_place(place);
        let found = self
            .table
            .shared
            .load::<LooksAtPlace<L, H, W>>(&mut pass.seat, word);
        Cell::of_word(found)
    }

    /// Loads a word of the key of the leaf that the pass loaded last in this stay, of a connection that it is building, or of a Live one
    /// whose turn it has. Where the connection held a key of that way, the word is that key's.
    pub fn load_key(&self, pass: &mut CellPass<L>, slot: u32, way: Way, word: u32) -> u64
        requires own { IsPassIn self.now pass.old }
        requires slot { slot < self.now.table.shared.key.slots }
        requires word { word < 5 }
        requires fixed { IsLeafOf pass.old.seat.me.0.trie slot way ⊎ IsBuiltIn pass.old.seat.me.0.pools.builds slot ⊎ HasLiveTurn pass.old.seat.me.0.turn slot }
        ensures own { IsPassIn self.now pass.new }
        ensures next { pass.new.seat.me ≡ with_trie pass.old.seat.me (reading pass.old.seat.me.0.trie) }
        ensures shows { ShowsKey pass.old.seat.me.0.trie slot way word result }
        ensures stored { ShowsStoredKey self.now.table.shared.key pass.old.seat.me.0.pools.stored slot way word result }
        ensures tells { TellsHeldKey L.meaning H.digest self.now.table.shared.key pass.old.seat.me.0 slot way word result }
    {
        self.load_key_as::<Brand>(pass, slot, way, word)
    }

    fn load_key_as<W: StepTold>(
        &self,
        pass: &mut CellPass<L>,
        slot: u32,
        way: Way,
        word: u32,
    ) -> u64
        requires own { IsPassIn self.now pass.old }
        requires slot { slot < self.now.table.shared.key.slots }
        requires word { word < 5 }
        requires aim { (W.told.layout ≡ self.now.table.shared.key) × (W.told.number ≡ slot) × (W.told.way ≡ way) × (W.told.word ≡ word) }
        ensures own { IsPassIn self.now pass.new }
        ensures next { pass.new.seat.me ≡ with_trie pass.old.seat.me (reading pass.old.seat.me.0.trie) }
        ensures shows { ShowsKey pass.old.seat.me.0.trie slot way word result }
        ensures stored { ShowsStoredKey self.now.table.shared.key pass.old.seat.me.0.pools.stored slot way word result }
        ensures tells { TellsHeldKey L.meaning H.digest self.now.table.shared.key pass.old.seat.me.0 slot way word result }
    {
        let place = self
            .layout
            .field_place(Pool::Slots, slot, key_field(way, word));
        self.table
            .shared
            .load::<LoadsKeyWord<L, H, W>>(&mut pass.seat, place)
    }
}
