// Emptied nodes are taken off the trie, while others walk it.
//
// A pass that has the lock of a node knows the node to hang where it has just emptied one of its places, and then its parent word names the place
// in which it hangs. It waits for the lock of that place with the node's own: who waits with a lock waits for one further up, and who has the
// topmost of them waits for none. If it gave up where it doesn't get that lock at once, nobody would come to the empty node again, and the
// node would be lost with all those above it.
ghost use Rattle.std.specs.Prelude.{◌≡◌, ◌≢◌, ◌<◌, None, [], ◌∷◌, true, IfSome, Contains};
ghost use Rattle.npf_paths.specs.declared.place.Lock.TheVariants as Locking;
ghost use Rattle.npf_paths.specs.Places.{lock_of};
ghost use Rattle.npf_cells_words.specs.Places.{IsInTrie};
ghost use Rattle.npf_cells.specs.Cells.{IsPassIn};
ghost use Rattle.npf_cells_rule.specs.Passes.{IsProtected};
ghost use Rattle.npf_turn.specs.TakingOff.{finding, FindsBare, FindsBareUnder, HasEmptied, KnowsNode, LeavesPlace};

use crate::codes::place_named;
use crate::locks::{lock, unlock};
use npf_cells::{CellPass, Cells};
use npf_core::Law;
use npf_paths::{KeyHash, Lock, NODE_DIGITS, Place};
use std::sync::Wait;

/// The word of a place where nothing stands.
const NOTHING: u64 = 0;

/// The state that frees a lock.
const FREE: u64 = 0;

/// The state of a node that was let go has this bit, and the epoch as it was then.
const LEFT: u64 = 1 << 63;

/// Frees the lock of a place that the pass has just emptied. Where nothing stands in the other places of its node either, the node is taken off
/// before: its mark stands then where it hung, and two epochs later it may come back. It may wait for the lock of that place.
pub(crate) fn take_off<L: Law, H: KeyHash>(
    rt: &impl Wait,
    cells: &Cells<L, H>,
    pass: &mut CellPass<L>,
    place: Place,
)
    requires own { IsPassIn cells.now pass.old }
    requires place { IsInTrie cells.now.table.shared.key place }
    requires protected { IsProtected pass.old.seat.me.0.epochs.pin }
    requires emptied { HasEmptied pass.old.seat.me.0.trie place }
    ensures own { IsPassIn cells.now pass.new }
    ensures leaves { LeavesPlace pass.old.seat.me pass.new.seat.me }
{
    if let Place::Node { node, .. } = place {
        if let Some(parent) = parent_of_bare(cells, pass, node) {
            lock(rt, cells, pass, parent.lock());
            mark_off(cells, pass, parent, node);
            return;
        }
    }
    unlock(cells, pass, place.lock());
}

// The place in which a node hangs whose lock the pass has, if nothing stands in any place of the node.
fn parent_of_bare<L: Law, H: KeyHash>(
    cells: &Cells<L, H>,
    pass: &mut CellPass<L>,
    node: u32,
) -> Option<Place>
    requires own { IsPassIn cells.now pass.old }
    requires exists { node < cells.now.table.shared.key.nodes }
    requires locked { Contains pass.old.seat.me.0.trie.locks (Locking.Node node) }
    requires emptied { KnowsNode pass.old.seat.me.0.trie node }
    ensures own { IsPassIn cells.now pass.new }
    ensures same { pass.new.seat.me ≡ finding pass.old.seat.me pass.new.seat.me }
    ensures within { IfSome result (IsInTrie cells.now.table.shared.key) }
    ensures bare { IfSome result (FindsBareUnder pass.new.seat.me.0.trie node) }
{
    if !is_bare(cells, pass, node) {
        return None;
    }
    let code = cells.load_parent(pass, node);
    place_named(cells.layout(), code)
}

// Whether nothing stands in any place of a node whose lock the pass has.
fn is_bare<L: Law, H: KeyHash>(cells: &Cells<L, H>, pass: &mut CellPass<L>, node: u32) -> bool
    requires own { IsPassIn cells.now pass.old }
    requires exists { node < cells.now.table.shared.key.nodes }
    requires locked { Contains pass.old.seat.me.0.trie.locks (Locking.Node node) }
    requires emptied { KnowsNode pass.old.seat.me.0.trie node }
    ensures own { IsPassIn cells.now pass.new }
    ensures same { pass.new.seat.me ≡ finding pass.old.seat.me pass.new.seat.me }
    ensures knows { KnowsNode pass.new.seat.me.0.trie node }
    ensures bare { result ≡ true → FindsBare pass.new.seat.me.0.trie node }
{
    for digit in 0..NODE_DIGITS {
        if cells.load_cell(pass, Place::Node { node, digit }) != NOTHING {
            return false;
        }
    }
    true
}

// Takes an empty node off, whose lock the pass has, and that of the place in which it hangs. Then it has neither.
fn mark_off<L: Law, H: KeyHash>(
    cells: &Cells<L, H>,
    pass: &mut CellPass<L>,
    parent: Place,
    node: u32,
)
    requires own { IsPassIn cells.now pass.old }
    requires exists { node < cells.now.table.shared.key.nodes }
    requires place { IsInTrie cells.now.table.shared.key parent }
    requires bare { FindsBareUnder pass.old.seat.me.0.trie node parent }
    requires both { pass.old.seat.me.0.trie.locks ≡ lock_of parent ∷ Locking.Node node ∷ [] }
    requires apart { lock_of parent ≢ Locking.Node node }
    requires unmarked { pass.old.seat.me.0.trie.marks ≡ [] }
    requires unseen { pass.old.seat.me.0.trie.seen ≡ None }
    requires unmet { pass.old.seat.me.0.trie.meets ≡ None }
    ensures own { IsPassIn cells.now pass.new }
    ensures leaves { LeavesPlace pass.old.seat.me pass.new.seat.me }
{
    cells.mark_node(pass, node);
    cells.mark_place(pass, parent, node);
    cells.store_node(pass, parent.lock(), FREE);
    let left = LEFT + cells.load_epoch(pass);
    cells.store_node(pass, Lock::Node(node), left);
    pass.set_left(left);
}
