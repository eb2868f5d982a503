// A look-up. It has no handle by which it could wait, and takes no lock, not even one that it gets at the first try: whoever frees a lock forgets
// what it found under its locks, and a look forgets nothing of that.
ghost use Rattle.std.specs.Prelude.{◌≡◌, ◌<◌};
ghost use Rattle.npf_cells_holds.specs.LookKinds.{IsLeafOf};
ghost use Rattle.npf_cells.specs.Cells.{IsPassIn};
ghost use Rattle.npf_cells_rule.specs.Passes.{IsProtected};
ghost use Rattle.npf_trie.specs.LookUp.{RoseBy, LooksUpKey, GetsNoLock, ComparesWords, NamesHolder};

use crate::walk::end_of;
use npf_cells::{CellPass, Cells};
use npf_core::{ConnId, Found, Law};
use npf_paths::{Cell, KeyHash};
use npf_types::{Key, Way};

/// How many words a key has.
const KEY_WORDS: u32 = 5;

/// Who holds the key, if anybody does, asked for the packet n: the pass has the answer as its entry from now on.
pub fn look<L: Law, H: KeyHash>(
    cells: &Cells<L, H>,
    pass: &mut CellPass<L>,
    n: u64,
    key: Key,
) -> Option<Found>
    requires own { IsPassIn cells.now pass.old }
    requires protected { IsProtected pass.old.seat.me.0.epochs.pin }
    ensures own { IsPassIn cells.now pass.new }
    ensures looks { LooksUpKey L.meaning n key result pass.old.seat.me pass.new.seat.me }
    ensures places { RoseBy 95 pass.old.seat.me.0.trie.places pass.new.seat.me.0.trie.places }
    ensures words { RoseBy 5 pass.old.seat.me.0.trie.words pass.new.seat.me.0.trie.words }
    ensures lockless { GetsNoLock pass.old.seat.me.0.trie pass.new.seat.me.0.trie }
{
    match end_of(cells, pass, n, key) {
        Cell::Leaf { slot, way } => holder_of(cells, pass, slot, way, &key),
        _ => None,
    }
}

// The connection of the leaf that the pass loaded last, if that leaf's key is this one.
fn holder_of<L: Law, H: KeyHash>(
    cells: &Cells<L, H>,
    pass: &mut CellPass<L>,
    slot: u32,
    way: Way,
    key: &Key,
) -> Option<Found>
    requires own { IsPassIn cells.now pass.old }
    requires slot { slot < cells.now.table.shared.key.slots }
    requires leaf { IsLeafOf pass.old.seat.me.0.trie slot way }
    ensures own { IsPassIn cells.now pass.new }
    ensures compares { ComparesWords 5 pass.old.seat.me pass.new.seat.me }
    ensures lockless { GetsNoLock pass.old.seat.me.0.trie pass.new.seat.me.0.trie }
    ensures holder { NamesHolder pass.old.seat.me.0.trie.leaf key.now result }
{
    for word in 0..KEY_WORDS {
        if cells.load_key(pass, slot, way, word) != key.0[word as usize] {
            return None;
        }
    }
    let inc = cells.load_inc(pass, slot);
    Some(Found {
        id: ConnId { slot, inc },
        way,
    })
}
