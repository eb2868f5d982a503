// Nodes in the place of another key's leaf.
//
// That leaf is moved under its slot's turn: its note gets the number of the place where it will stand under the lock of the place where it
// stands, and the next store moves it, so nothing is undone between. Where something else stands there under the lock, the nodes are given
// back rather than kept for another key.
ghost use Rattle.std.specs.Prelude.{◌≡◌, ◌≤◌, ◌<◌, ◌∷◌, [], None};
ghost use Rattle.npf_core.specs.declared.held.Held.TheVariants.{Done};
ghost use Rattle.npf_paths.specs.Places.{lock_of};
ghost use Rattle.npf_cells.specs.Cells.{IsPassIn};
ghost use Rattle.npf_cells_rule.specs.Passes.{IsProtected};
ghost use Rattle.npf_trie.specs.HoldKey.{CanHold, IsAtPlace, StepsSo, HasMet, HasNewTurn, HasGrown, SeesOtherLeaf, HasHung, HangsSo};

use crate::branch::{Tip, build_branch};
use crate::keys::{leaf_note, store_key, store_note};
use crate::meet::meet;
use crate::nodes::{give_all, take_nodes};
use crate::step::{Branch, LeafKey, OtherLeaf, Point, Step, Wanted};
use arrayvec::ArrayVec;
use npf_cells::{CellPass, Cells, TurnAct};
use npf_core::{Held, Law};
use npf_paths::{Cell, KeyHash, parting_level};
use npf_turn::{lock_hung, unlock, wait_turn};
use std::sync::Wait;

/// Grows nodes in the place of the leaf of another key that the pass met there, down to the level at which the two part, if that leaf
/// still stands there under the lock.
pub(crate) fn grow<L: Law, H: KeyHash>(
    rt: &impl Wait,
    cells: &Cells<L, H>,
    pass: &mut CellPass<L>,
    wanted: &Wanted,
    point: Point,
    other: &OtherLeaf,
) -> Step
    requires own { IsPassIn cells.now pass.old }
    requires protected { IsProtected pass.old.seat.me.0.epochs.pin }
    requires can { CanHold L.meaning cells.now.table.shared.key pass.old.seat.me.0 wanted.now.id wanted.now.way }
    requires at { IsAtPlace H.digest cells.now.table.shared.key pass.old.seat.me.0 wanted.now.key point }
    requires met { HasMet pass.old.seat.me.0.trie wanted.now.key point.level other.now }
    requires hashed { wanted.now.hash ≡ H.digest wanted.now.key }
    requires exists { other.now.slot < cells.now.table.shared.key.slots }
    ensures own { IsPassIn cells.now pass.new }
    ensures steps { StepsSo L.meaning H.digest cells.now.table.shared.key wanted.now point result pass.old.seat.me pass.new.seat.me }
    ensures loads { pass.old.seat.me.0.trie.places ≤ pass.new.seat.me.0.trie.places }
{
    let mine = Tip {
        hash: wanted.hash,
        key: wanted.key,
        leaf: wanted.leaf(),
    };
    let theirs = Tip {
        hash: H::hash(&other.key),
        key: other.key,
        leaf: other.cell(),
    };
    // Keys that meet share their digits down to this level, so they part further down.
    let parting = match parting_level(mine.hash, &mine.key, theirs.hash, &theirs.key) {
        Some(parting) if parting > point.level => parting,
        _ => return Step::Again,
    };
    let Some(nodes) = take_nodes(rt, cells, pass, parting - point.level) else {
        return Step::Ends(Held::NoNode);
    };
    build_branch(cells, pass, nodes.as_slice(), point, &mine, &theirs);
    store_key(cells, pass, wanted.id.slot, wanted.way, &wanted.key);
    let last = nodes[(parting - point.level - 1) as usize];
    let branch = Branch {
        other: *other,
        first: nodes[0],
        own_place: mine.place_in(last, parting),
        moved_to: theirs.place_in(last, parting),
    };
    let step = move_leaf(rt, cells, pass, wanted, point, &branch);
    match step {
        // They hang in the trie.
        Step::Ends(Held::Done) => {}
        _ => give_all(cells, pass, &nodes),
    }
    step
}

// Hangs the new nodes in the place of the other leaf, under its slot's turn and then under the place's lock: a turn is never waited for with
// a lock.
fn move_leaf<L: Law, H: KeyHash>(
    rt: &impl Wait,
    cells: &Cells<L, H>,
    pass: &mut CellPass<L>,
    wanted: &Wanted,
    point: Point,
    branch: &Branch,
) -> Step
    requires own { IsPassIn cells.now pass.old }
    requires protected { IsProtected pass.old.seat.me.0.epochs.pin }
    requires exists { branch.now.other.slot < cells.now.table.shared.key.slots }
    requires turnless { pass.old.seat.me.0.turn ≡ None }
    requires free { pass.old.seat.me.0.trie.locks ≡ [] }
    requires grown { HasGrown L.meaning H.digest cells.now.table.shared.key pass.old.seat.me.0 wanted.now point branch.now }
    ensures own { IsPassIn cells.now pass.new }
    ensures hangs { HangsSo L.meaning H.digest cells.now.table.shared.key wanted.now point result pass.old.seat.me pass.new.seat.me }
    ensures loads { pass.old.seat.me.0.trie.places ≤ pass.new.seat.me.0.trie.places }
{
    wait_turn(rt, cells, pass, branch.other.slot);
    let step = hang_locked(rt, cells, pass, wanted, point, branch);
    cells.end_turn(pass, branch.other.slot, &TurnAct::Nothing);
    step
}

// The same under the turn, where the place's node isn't taken off.
fn hang_locked<L: Law, H: KeyHash>(
    rt: &impl Wait,
    cells: &Cells<L, H>,
    pass: &mut CellPass<L>,
    wanted: &Wanted,
    point: Point,
    branch: &Branch,
) -> Step
    requires own { IsPassIn cells.now pass.old }
    requires protected { IsProtected pass.old.seat.me.0.epochs.pin }
    requires exists { branch.now.other.slot < cells.now.table.shared.key.slots }
    requires free { pass.old.seat.me.0.trie.locks ≡ [] }
    requires turn { HasNewTurn pass.old.seat.me.0.turn branch.now.other.slot }
    requires grown { HasGrown L.meaning H.digest cells.now.table.shared.key pass.old.seat.me.0 wanted.now point branch.now }
    ensures own { IsPassIn cells.now pass.new }
    ensures hangs { HangsSo L.meaning H.digest cells.now.table.shared.key wanted.now point result pass.old.seat.me pass.new.seat.me }
    ensures loads { pass.old.seat.me.0.trie.places ≤ pass.new.seat.me.0.trie.places }
{
    if !lock_hung(rt, cells, pass, point.place.lock()) {
        return Step::Anew;
    }
    let step = hang(cells, pass, wanted, point, branch);
    unlock(cells, pass, point.place.lock());
    step
}

// Hangs the first of the new nodes in the place, under its lock, where the other leaf still stands. Before, both notes name the new places.
fn hang<L: Law, H: KeyHash>(
    cells: &Cells<L, H>,
    pass: &mut CellPass<L>,
    wanted: &Wanted,
    point: Point,
    branch: &Branch,
) -> Step
    requires own { IsPassIn cells.now pass.old }
    requires protected { IsProtected pass.old.seat.me.0.epochs.pin }
    requires exists { branch.now.other.slot < cells.now.table.shared.key.slots }
    requires locked { pass.old.seat.me.0.trie.locks ≡ lock_of point.place ∷ [] }
    requires turn { HasNewTurn pass.old.seat.me.0.turn branch.now.other.slot }
    requires grown { HasGrown L.meaning H.digest cells.now.table.shared.key pass.old.seat.me.0 wanted.now point branch.now }
    ensures own { IsPassIn cells.now pass.new }
    ensures hangs { HangsSo L.meaning H.digest cells.now.table.shared.key wanted.now point result pass.old.seat.me pass.new.seat.me }
    ensures loads { pass.old.seat.me.0.trie.places ≤ pass.new.seat.me.0.trie.places }
{
    match cells.load_place(pass, point.place, &wanted.aim()) {
        Cell::Node(node) => Step::Leads(node),
        Cell::Leaf { slot, way } => match meet(cells, pass, slot, way, &wanted.key) {
            LeafKey::Holder(found) => Step::Ends(Held::Taken(found)),
            LeafKey::Other(key) if branch.other == (OtherLeaf { slot, way, key }) => {
                put_branch(cells, pass, wanted, point, branch);
                Step::Ends(Held::Done)
            }
            LeafKey::Other(_) => Step::Again,
        },
        Cell::Empty => Step::Again,
        Cell::Mark => Step::Anew,
    }
}

// Stores the notes of both leaves, and then the first node in the place, where the pass has just seen the other leaf under the lock.
fn put_branch<L: Law, H: KeyHash>(
    cells: &Cells<L, H>,
    pass: &mut CellPass<L>,
    wanted: &Wanted,
    point: Point,
    branch: &Branch,
)
    requires own { IsPassIn cells.now pass.old }
    requires protected { IsProtected pass.old.seat.me.0.epochs.pin }
    requires exists { branch.now.other.slot < cells.now.table.shared.key.slots }
    requires turn { HasNewTurn pass.old.seat.me.0.turn branch.now.other.slot }
    requires grown { HasGrown L.meaning H.digest cells.now.table.shared.key pass.old.seat.me.0 wanted.now point branch.now }
    requires sees { SeesOtherLeaf pass.old.seat.me.0.trie wanted.now.key point branch.now.other }
    ensures own { IsPassIn cells.now pass.new }
    ensures hung { HasHung L.meaning wanted.now Done pass.old.seat.me pass.new.seat.me }
    ensures loads { pass.new.seat.me.0.trie.places ≡ pass.old.seat.me.0.trie.places }
{
    let own_place = leaf_note(branch.own_place);
    store_note(cells, pass, wanted.id.slot, wanted.way, own_place);
    let moved_to = leaf_note(branch.moved_to);
    cells.note_ahead(pass, branch.other.slot, branch.other.way, moved_to);
    let node = Cell::Node(branch.first);
    cells.publish_place(pass, point.place, node, Some(&wanted.aim()));
}
