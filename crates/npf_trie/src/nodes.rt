// Nodes are taken for a branch, and given back.
ghost use Rattle.std.specs.Prelude.{◌≡◌, ◌≤◌, ◌<◌, ℕ, [], length, IfSome, IfNone, Contains};
ghost use Rattle.npf_paths.specs.LevelLaw.{AreApart};
ghost use Rattle.npf_cells.specs.Cells.{IsPassIn};
ghost use Rattle.npf_cells_rule.specs.Passes.{IsProtected};
ghost use Rattle.npf_cells_rule.specs.Views.{with_pools};
ghost use Rattle.npf_cells_holds.specs.PublishKinds.{nodes_but};
ghost use Rattle.npf_trie.specs.Nodes.{NeedsNodes, TakesNodes, FindsTooFew, left_with};

use arrayvec::ArrayVec;
use npf_cells::{CellPass, Cells, Pool};
use npf_core::Law;
use npf_paths::KeyHash;
use npf_pool::take;
use std::sync::Wait;

/// Takes so many nodes, one for each level between two keys that met. None where too few were left: those taken were given back.
pub(crate) fn take_nodes<L: Law, H: KeyHash>(
    rt: &impl Wait,
    cells: &Cells<L, H>,
    pass: &mut CellPass<L>,
    count: u32,
) -> Option<ArrayVec<u32, 94>>
    requires own { IsPassIn cells.now pass.old }
    requires protected { IsProtected pass.old.seat.me.0.epochs.pin }
    requires none { pass.old.seat.me.0.pools.nodes ≡ [] }
    requires needs { NeedsNodes H.digest pass.old.seat.me.0 count }
    ensures own { IsPassIn cells.now pass.new }
    ensures takes { IfSome result (λ nodes. TakesNodes cells.now.table.shared.key count nodes.items pass.old.seat.me pass.new.seat.me) }
    ensures none { IfNone result (FindsTooFew cells.now.table.shared.key pass.old.seat.me pass.new.seat.me) }
{
    let mut nodes = ArrayVec::new();
    for _ in 0..count {
        match take(rt, cells, pass, Pool::Nodes, 0) {
            Some(node) => nodes.push(node),
            None => {
                give_all(cells, pass, &nodes);
                return None;
            }
        }
    }
    Some(nodes)
}

/// Gives back all nodes that the pass owns. What it stored is forgotten with them.
pub(crate) fn give_all<L: Law, H: KeyHash>(
    cells: &Cells<L, H>,
    pass: &mut CellPass<L>,
    nodes: &ArrayVec<u32, 94>,
)
    requires own { IsPassIn cells.now pass.old }
    requires within { (node : ℕ) → Contains nodes.now.items node → node < cells.now.table.shared.key.nodes }
    requires apart { AreApart nodes.now.items }
    requires owned { (node : ℕ) → Contains nodes.now.items node → Contains pass.old.seat.me.0.pools.nodes node }
    requires all { nodes_but nodes.now.items pass.old.seat.me.0.pools.nodes ≡ [] }
    ensures own { IsPassIn cells.now pass.new }
    ensures next { pass.new.seat.me ≡ with_pools pass.old.seat.me (left_with [] pass.old.seat.me.0.pools pass.new.seat.me.0.pools) }
    ensures forgets { 1 ≤ length nodes.now.items → pass.new.seat.me.0.pools.stored ≡ [] }
    ensures same { nodes.now.items ≡ [] → pass.new.seat.me ≡ pass.old.seat.me }
{
    for node in nodes.as_slice() {
        cells.give_back(pass, Pool::Nodes, *node);
    }
}
