// Whose key a leaf has.
ghost use Rattle.std.specs.Prelude.{◌≡◌, ◌<◌, length, Some};
ghost use Rattle.npf_cells_leaves.specs.declared.trie.LoadedLeaf.{LoadedLeaf};
ghost use Rattle.npf_cells_holds.specs.LookKinds.{IsLeafOf};
ghost use Rattle.npf_cells.specs.Cells.{IsPassIn};
ghost use Rattle.npf_trie.specs.HoldKey.{TellsMet};
ghost use Rattle.npf_trie.specs.LookUp.{ComparesWords};

use crate::step::LeafKey;
use npf_cells::{CellPass, Cells};
use npf_core::{ConnId, Found, Law};
use npf_paths::KeyHash;
use npf_types::{Key, Way};

/// Whose key the leaf has that the pass loaded last.
pub(crate) fn meet<L: Law, H: KeyHash>(
    cells: &Cells<L, H>,
    pass: &mut CellPass<L>,
    slot: u32,
    way: Way,
    key: &Key,
) -> LeafKey
    requires own { IsPassIn cells.now pass.old }
    requires slot { slot < cells.now.table.shared.key.slots }
    requires leaf { IsLeafOf pass.old.seat.me.0.trie slot way }
    ensures own { IsPassIn cells.now pass.new }
    ensures compares { ComparesWords 5 pass.old.seat.me pass.new.seat.me }
    ensures met { (leaf : LoadedLeaf) → pass.old.seat.me.0.trie.leaf ≡ Some leaf → length leaf.key.0 ≡ 5 → TellsMet leaf key.now result }
{
    let met = Key([
        cells.load_key(pass, slot, way, 0),
        cells.load_key(pass, slot, way, 1),
        cells.load_key(pass, slot, way, 2),
        cells.load_key(pass, slot, way, 3),
        cells.load_key(pass, slot, way, 4),
    ]);
    if met != *key {
        return LeafKey::Other(met);
    }
    let inc = cells.load_inc(pass, slot);
    LeafKey::Holder(Found {
        id: ConnId { slot, inc },
        way,
    })
}
