// A key is held.
ghost use Rattle.std.specs.Prelude.{◌≡◌, ◌+◌, ◌≤◌, ◌<◌, []};
ghost use Rattle.npf_paths.specs.Digits.{digit_of};
ghost use Rattle.npf_paths.specs.declared.place.Place.TheVariants as Places;
ghost use Rattle.npf_cells.specs.Cells.{IsPassIn};
ghost use Rattle.npf_cells_rule.specs.Passes.{IsProtected};
ghost use Rattle.npf_cells_words.specs.Places.{IsInTrie};
ghost use Rattle.npf_turn.specs.TakingOff.{HasNoNodes};
ghost use Rattle.npf_trie.specs.HoldKey.{CanHold, SettlesAnew, StaysAnew, IsInNewStay, IsAtPlace, StepsSo};

use crate::fill::fill;
use crate::grow::grow;
use crate::meet::meet;
use crate::step::{LeafKey, OtherLeaf, Point, Step, Wanted};
use npf_cells::{CellPass, Cells};
use npf_core::{ConnId, Held, Law};
use npf_epoch::{enter, leave, try_advance};
use npf_paths::{Cell, KeyHash, Place, digit};
use npf_turn::clear_mark_at;
use npf_types::{Key, Way};
use std::sync::Wait;
use std::thread::yield_now;

/// The key for a connection that the pass is building, as its key of that way: Done, or Taken by its holder. NoNode where it meets another
/// key and too few nodes are left, as a sweep found. After each answer the pass has neither a node, a lock nor a turn, and has loaded a place in
/// this call, so that the key which it met last is one that it met in it. It may wait for a lock, and for the turn of a slot whose leaf it moves.
pub fn hold<L: Law, H: KeyHash>(
    rt: &impl Wait,
    cells: &Cells<L, H>,
    pass: &mut CellPass<L>,
    id: ConnId,
    key: Key,
    way: Way,
) -> Held
    requires own { IsPassIn cells.now pass.old }
    requires protected { IsProtected pass.old.seat.me.0.epochs.pin }
    requires can { CanHold L.meaning cells.now.table.shared.key pass.old.seat.me.0 id way }
    ensures own { IsPassIn cells.now pass.new }
    ensures answers { SettlesAnew L.meaning cells.now.table.shared.key id key way result pass.old.seat.me pass.new.seat.me }
    ensures loaded { pass.old.seat.me.0.trie.places + 1 ≤ pass.new.seat.me.0.trie.places }
{
    let hash = H::hash(&key);
    let wanted = Wanted { id, key, hash, way };
    let root = Point {
        place: Place::Root(digit(hash, &key, 0)),
        level: 0,
    };
    let mut point = root;
    for _ in rt.forever() {
        match step(rt, cells, pass, &wanted, point) {
            Step::Ends(held) => return held,
            Step::Leads(node) => point = further(hash, &key, node, point.level + 1),
            Step::Again => {}
            Step::Anew => {
                stay_anew(cells, pass, point.place);
                point = root;
            }
        }
    }
    unreachable!()
}

// Begins a new stay, since the key's path was seen to come to a node that is taken off. What was left long ago may be cleared then: of the mark in
// this place it is tried. The pass lets others go on while it is in no stay, so that none of those who wait here holds the epoch back.
fn stay_anew<L: Law, H: KeyHash>(cells: &Cells<L, H>, pass: &mut CellPass<L>, place: Place)
    requires own { IsPassIn cells.now pass.old }
    requires protected { IsProtected pass.old.seat.me.0.epochs.pin }
    requires place { IsInTrie cells.now.table.shared.key place }
    requires unlocked { pass.old.seat.me.0.trie.locks ≡ [] }
    requires nodes { HasNoNodes pass.old.seat.me.0.pools }
    ensures own { IsPassIn cells.now pass.new }
    ensures anew { StaysAnew pass.old.seat.me pass.new.seat.me }
    ensures new_stay { IsInNewStay pass.new.seat.me.0 }
{
    leave(cells, pass);
    try_advance(cells, pass);
    yield_now();
    enter(cells, pass);
    let epoch = cells.load_epoch(pass);
    clear_mark_at(cells, pass, place, epoch);
}

// The place of a node at this level of the key's path.
fn further(hash: u64, key: &Key, node: u32, level: u32) -> Point
    requires { level < 95 }
    ensures { result ≡ record { place = Places.Node node (digit_of hash key.now level); level = level } }
{
    Point {
        place: Place::Node {
            node,
            digit: digit(hash, key, level),
        },
        level,
    }
}

// Looks at a place of the key's path, and ends the hold there where that can be.
fn step<L: Law, H: KeyHash>(
    rt: &impl Wait,
    cells: &Cells<L, H>,
    pass: &mut CellPass<L>,
    wanted: &Wanted,
    point: Point,
) -> Step
    requires own { IsPassIn cells.now pass.old }
    requires protected { IsProtected pass.old.seat.me.0.epochs.pin }
    requires can { CanHold L.meaning cells.now.table.shared.key pass.old.seat.me.0 wanted.now.id wanted.now.way }
    requires at { IsAtPlace H.digest cells.now.table.shared.key pass.old.seat.me.0 wanted.now.key point }
    requires hashed { wanted.now.hash ≡ H.digest wanted.now.key }
    ensures own { IsPassIn cells.now pass.new }
    ensures steps { StepsSo L.meaning H.digest cells.now.table.shared.key wanted.now point result pass.old.seat.me pass.new.seat.me }
    ensures loaded { pass.old.seat.me.0.trie.places + 1 ≤ pass.new.seat.me.0.trie.places }
{
    match cells.load_place(pass, point.place, &wanted.aim()) {
        Cell::Node(node) => Step::Leads(node),
        Cell::Empty => fill(rt, cells, pass, wanted, point),
        Cell::Leaf { slot, way } => match meet(cells, pass, slot, way, &wanted.key) {
            LeafKey::Holder(found) => Step::Ends(Held::Taken(found)),
            LeafKey::Other(key) => grow(
                rt,
                cells,
                pass,
                wanted,
                point,
                &OtherLeaf { slot, way, key },
            ),
        },
        Cell::Mark => Step::Anew,
    }
}
