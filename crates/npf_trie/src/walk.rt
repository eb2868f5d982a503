// A walk down the trie, to where a key's path ends.
ghost use Rattle.std.specs.Prelude.{◌≡◌};
ghost use Rattle.npf_cells_holds.specs.LookKinds.{FitsLayout};
ghost use Rattle.npf_cells.specs.Cells.{IsPassIn};
ghost use Rattle.npf_cells_rule.specs.Passes.{IsProtected};
ghost use Rattle.npf_paths.specs.Paths.{IsEnd};
ghost use Rattle.npf_trie.specs.LookUp.{ComesToEnd, GetsNoLock};

use npf_cells::{Aim, CellPass, Cells};
use npf_core::Law;
use npf_paths::{Cell, KeyHash, LEVELS, Place, digit};
use npf_types::Key;

/// Walks the key's path to its end, and answers what stands there: no node. The last load is the look for the packet n.
pub fn end_of<L: Law, H: KeyHash>(
    cells: &Cells<L, H>,
    pass: &mut CellPass<L>,
    n: u64,
    key: Key,
) -> Cell
    requires own { IsPassIn cells.now pass.old }
    requires protected { IsProtected pass.old.seat.me.0.epochs.pin }
    ensures own { IsPassIn cells.now pass.new }
    ensures fits { FitsLayout cells.now.table.shared.key result }
    ensures comes { ComesToEnd L.meaning n key result pass.old.seat.me pass.new.seat.me }
    ensures lockless { GetsNoLock pass.old.seat.me.0.trie pass.new.seat.me.0.trie }
{
    let hash = H::hash(&key);
    let mut place = Place::Root(digit(hash, &key, 0));
    for level in 0..LEVELS {
        let cell = cells.load_place(pass, place, &Aim::Look { n, key });
        match cell {
            Cell::Node(node) => {
                place = Place::Node {
                    node,
                    digit: digit(hash, &key, level + 1),
                };
            }
            end => return end,
        }
    }
    unreachable!()
}
