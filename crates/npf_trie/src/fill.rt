// A leaf put in an empty place. Its note is stored under the lock, right before it, so a hold that is refused leaves each note 0.
ghost use Rattle.std.specs.Prelude.{◌≡◌, ◌≤◌};
ghost use Rattle.npf_cells.specs.Cells.{IsPassIn};
ghost use Rattle.npf_cells_rule.specs.Passes.{IsProtected};
ghost use Rattle.npf_trie.specs.HoldKey.{CanHold, IsAtPlace, StepsSo};

use crate::keys::{leaf_note, store_key, store_note};
use crate::meet::meet;
use crate::step::{LeafKey, Point, Step, Wanted};
use npf_cells::{CellPass, Cells};
use npf_core::{Held, Law};
use npf_paths::{Cell, KeyHash};
use npf_turn::{lock_hung, unlock};
use std::sync::Wait;

/// Puts the connection's leaf in the place, if nothing stands there under its lock.
pub(crate) fn fill<L: Law, H: KeyHash>(
    rt: &impl Wait,
    cells: &Cells<L, H>,
    pass: &mut CellPass<L>,
    wanted: &Wanted,
    point: Point,
) -> Step
    requires own { IsPassIn cells.now pass.old }
    requires protected { IsProtected pass.old.seat.me.0.epochs.pin }
    requires can { CanHold L.meaning cells.now.table.shared.key pass.old.seat.me.0 wanted.now.id wanted.now.way }
    requires at { IsAtPlace H.digest cells.now.table.shared.key pass.old.seat.me.0 wanted.now.key point }
    ensures own { IsPassIn cells.now pass.new }
    ensures steps { StepsSo L.meaning H.digest cells.now.table.shared.key wanted.now point result pass.old.seat.me pass.new.seat.me }
    ensures loads { pass.old.seat.me.0.trie.places ≤ pass.new.seat.me.0.trie.places }
{
    store_key(cells, pass, wanted.id.slot, wanted.way, &wanted.key);
    if !lock_hung(rt, cells, pass, point.place.lock()) {
        return Step::Anew;
    }
    let step = match cells.load_place(pass, point.place, &wanted.aim()) {
        Cell::Empty => {
            let place = leaf_note(point.place);
            store_note(cells, pass, wanted.id.slot, wanted.way, place);
            cells.publish_place(pass, point.place, wanted.leaf(), Some(&wanted.aim()));
            Step::Ends(Held::Done)
        }
        Cell::Node(node) => Step::Leads(node),
        Cell::Leaf { slot, way } => match meet(cells, pass, slot, way, &wanted.key) {
            LeafKey::Holder(found) => Step::Ends(Held::Taken(found)),
            LeafKey::Other(_) => Step::Again,
        },
        Cell::Mark => Step::Anew,
    };
    unlock(cells, pass, point.place.lock());
    step
}
