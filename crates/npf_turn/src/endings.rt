// The keys of a killed connection.
//
// One is given up under its slot's turn, since a note without it may name a place in a node that another pass is about to publish; under
// the turn and the lock of the noted place the leaf stands there, so it isn't loaded again. Who gives a key up forgets the epoch that it
// loaded: what the first note gets is from after the last key was gone.
ghost use Rattle.std.specs.Prelude.{◌≡◌, ◌≤◌, ◌<◌, ◌+◌, ◌*◌, None, [], Contains};
ghost use Rattle.npf_cells_words.specs.Codes.{place_code};
ghost use Rattle.npf_cells_words.specs.Places.{IsInTrie};
ghost use Rattle.npf_cells_rule.specs.Passes.{IsProtected};
ghost use Rattle.npf_cells.specs.Cells.{IsPassIn};
ghost use Rattle.npf_types.specs.declared.key.Way.{Way};
ghost use Rattle.npf_turn.specs.Endings.{HasEnded, HasEndedKey, HasEndedKeys};

use crate::codes::place_of;
use crate::letting_go::let_go;
use crate::locks::lock;
use crate::taking_off::take_off;
use crate::turn::wait_turn;
use npf_cells::{CellPass, Cells, TurnAct};
use npf_core::{ConnId, Law};
use npf_paths::KeyHash;
use npf_types::Way;
use std::sync::Wait;

/// A note that names no place.
const NO_PLACE: u64 = 0;

/// Gives up the key of that way of a connection that the pass killed, and answers whether it held one.
pub fn end_key<L: Law, H: KeyHash>(
    rt: &impl Wait,
    cells: &Cells<L, H>,
    pass: &mut CellPass<L>,
    id: ConnId,
    way: Way,
) -> bool
    requires own { IsPassIn cells.now pass.old }
    requires exists { id.slot < cells.now.table.shared.key.slots }
    requires protected { IsProtected pass.old.seat.me.0.epochs.pin }
    requires turnless { pass.old.seat.me.0.turn ≡ None }
    requires unlocked { pass.old.seat.me.0.trie.locks ≡ [] }
    requires killed { Contains pass.old.seat.me.0.pools.kills id }
    requires held { ¬ Contains pass.old.seat.me.0.pools.gave_up (record { id = id; way = way }) }
    ensures own { IsPassIn cells.now pass.new }
    ensures ends { HasEndedKey L.meaning id way result pass.old.seat.me pass.new.seat.me }
{
    wait_turn(rt, cells, pass, id.slot);
    let note = cells.load_note(pass, id.slot, way);
    if note == NO_PLACE {
        cells.end_turn(pass, id.slot, &TurnAct::Nothing);
        return false;
    }
    let place = place_of(cells.layout(), note);
    lock(rt, cells, pass, place.lock());
    cells.unlink(pass, place, id, way);
    take_off(rt, cells, pass, place);
    cells.end_turn(pass, id.slot, &TurnAct::Nothing);
    true
}

/// Gives up all keys of a connection that the pass killed, of which it hasn't given up any.
pub fn end_keys<L: Law, H: KeyHash>(
    rt: &impl Wait,
    cells: &Cells<L, H>,
    pass: &mut CellPass<L>,
    id: ConnId,
)
    requires own { IsPassIn cells.now pass.old }
    requires exists { id.slot < cells.now.table.shared.key.slots }
    requires protected { IsProtected pass.old.seat.me.0.epochs.pin }
    requires turnless { pass.old.seat.me.0.turn ≡ None }
    requires unlocked { pass.old.seat.me.0.trie.locks ≡ [] }
    requires killed { Contains pass.old.seat.me.0.pools.kills id }
    requires held { (way : Way) → ¬ Contains pass.old.seat.me.0.pools.gave_up (record { id = id; way = way }) }
    ensures own { IsPassIn cells.now pass.new }
    ensures ends { HasEndedKeys L.meaning id pass.old.seat.me pass.new.seat.me }
{
    end_key(rt, cells, pass, id, Way::Forward);
    end_key(rt, cells, pass, id, Way::Backward);
    end_key(rt, cells, pass, id, Way::Port);
}

/// Gives up all keys of a connection that the pass killed, and lets it go: two epochs later any pass may free it.
pub fn end_killed<L: Law, H: KeyHash>(
    rt: &impl Wait,
    cells: &Cells<L, H>,
    pass: &mut CellPass<L>,
    id: ConnId,
)
    requires own { IsPassIn cells.now pass.old }
    requires exists { id.slot < cells.now.table.shared.key.slots }
    requires protected { IsProtected pass.old.seat.me.0.epochs.pin }
    requires turnless { pass.old.seat.me.0.turn ≡ None }
    requires unlocked { pass.old.seat.me.0.trie.locks ≡ [] }
    requires killed { Contains pass.old.seat.me.0.pools.kills id }
    requires held { (way : Way) → ¬ Contains pass.old.seat.me.0.pools.gave_up (record { id = id; way = way }) }
    ensures own { IsPassIn cells.now pass.new }
    ensures ends { HasEnded L.meaning id pass.old.seat.me pass.new.seat.me }
{
    end_keys(rt, cells, pass, id);
    let_go(cells, pass, id);
}
