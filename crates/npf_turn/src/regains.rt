// Nodes that were taken off come back, once nobody can be in them any more.
ghost use Rattle.std.specs.Prelude.{◌≡◌, ◌<◌, ◌∷◌, []};
ghost use Rattle.npf_paths.specs.Places.{lock_of};
ghost use Rattle.npf_cells_words.specs.Places.{IsInTrie};
ghost use Rattle.npf_cells.specs.Cells.{IsPassIn};
ghost use Rattle.npf_cells_rule.specs.Passes.{IsProtected};
ghost use Rattle.npf_turn.specs.TakingOff.{HasNoNodes, HasReached, ReturnsNode, TriesToClear};

use crate::codes::place_named;
use crate::locks::unlock;
use crate::reclaims::is_long_left;
use crate::taking_off::take_off;
use npf_cells::{CellPass, Cells, Pool};
use npf_core::Law;
use npf_paths::{KeyHash, Place};
use std::sync::Wait;

/// The kind of a word of a place that is a mark, in its two lowest bits; above them stands the node's number.
const MARK: u64 = 3;

/// Clears the mark that stands in the place, if one does whose node was let go two epochs before the one that the pass loaded last, or earlier: the
/// node is free again. Answers whether it did. It waits for nobody: where another pass has the place's lock, it does nothing.
pub fn clear_mark_at<L: Law, H: KeyHash>(
    cells: &Cells<L, H>,
    pass: &mut CellPass<L>,
    place: Place,
    epoch: u64,
) -> bool
    requires own { IsPassIn cells.now pass.old }
    requires place { IsInTrie cells.now.table.shared.key place }
    requires protected { IsProtected pass.old.seat.me.0.epochs.pin }
    requires unlocked { pass.old.seat.me.0.trie.locks ≡ [] }
    requires reached { HasReached pass.old.seat.me.0.epochs epoch }
    requires nodes { HasNoNodes pass.old.seat.me.0.pools }
    ensures own { IsPassIn cells.now pass.new }
    ensures returns { ReturnsNode result pass.old.seat.me pass.new.seat.me }
    ensures epochs { pass.new.seat.me.0.epochs ≡ pass.old.seat.me.0.epochs }
{
    if !cells.try_lock(pass, place.lock()) {
        return false;
    }
    let cleared = clear_locked(cells, pass, place, epoch);
    unlock(cells, pass, place.lock());
    cleared
}

/// Frees the node, if it was let go two epochs before this one or earlier, and takes the node off in which its mark stood, if that is then empty.
/// Answers whether it freed the node. A node whose place's lock another pass has is left for the next time; for the lock of the place in which that
/// place's node hangs it may wait.
pub fn regain<L: Law, H: KeyHash>(
    rt: &impl Wait,
    cells: &Cells<L, H>,
    pass: &mut CellPass<L>,
    node: u32,
    epoch: u64,
) -> bool
    requires own { IsPassIn cells.now pass.old }
    requires exists { node < cells.now.table.shared.key.nodes }
    requires protected { IsProtected pass.old.seat.me.0.epochs.pin }
    requires unlocked { pass.old.seat.me.0.trie.locks ≡ [] }
    requires reached { HasReached pass.old.seat.me.0.epochs epoch }
    requires nodes { HasNoNodes pass.old.seat.me.0.pools }
    ensures own { IsPassIn cells.now pass.new }
    ensures returns { ReturnsNode result pass.old.seat.me pass.new.seat.me }
{
    // What the state and the parent say is a hint: it is looked at again under the lock of the place.
    if !is_long_left(cells.load_state(pass, node), epoch) {
        return false;
    }
    let code = cells.load_parent(pass, node);
    let Some(place) = place_named(cells.layout(), code) else {
        return false;
    };
    if !cells.try_lock(pass, place.lock()) {
        return false;
    }
    let cleared = clear_locked(cells, pass, place, epoch);
    if cleared {
        take_off(rt, cells, pass, place);
    } else {
        unlock(cells, pass, place.lock());
    }
    cleared
}

// The same in a place whose lock the pass has, and keeps.
fn clear_locked<L: Law, H: KeyHash>(
    cells: &Cells<L, H>,
    pass: &mut CellPass<L>,
    place: Place,
    epoch: u64,
) -> bool
    requires own { IsPassIn cells.now pass.old }
    requires place { IsInTrie cells.now.table.shared.key place }
    requires only { pass.old.seat.me.0.trie.locks ≡ lock_of place ∷ [] }
    requires reached { HasReached pass.old.seat.me.0.epochs epoch }
    requires nodes { HasNoNodes pass.old.seat.me.0.pools }
    ensures own { IsPassIn cells.now pass.new }
    ensures tries { TriesToClear place result pass.old.seat.me pass.new.seat.me }
{
    let word = cells.load_cell(pass, place);
    if word % 4 != MARK {
        return false;
    }
    let node = (word / 4) as u32;
    if !is_long_left(cells.load_state(pass, node), epoch) {
        return false;
    }
    cells.clear_mark(pass, place, node);
    cells.free_node(pass, node);
    cells.give_back(pass, Pool::Nodes, node);
    true
}
