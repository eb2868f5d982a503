// A slot is copied as it stands.
ghost use Rattle.std.specs.Prelude.{◌≡◌, ◌<◌, None, []};
ghost use Rattle.npf_connections.specs.Pass.{IsPass, all_places};
ghost use Rattle.npf_cells.specs.Cells.{IsPassIn};
ghost use Rattle.npf_cells_rule.specs.Passes.{cell_pass};
ghost use Rattle.npf_conndb.specs.Copy.{HasCopied, FoundInSlot, HasLiveOne, CopiesKey};

use npf_cells::{CellPass, Cells, Pool, TurnAct};
use npf_cells_words::note_field;
use npf_core::{ConnId, Kept, Law};
use npf_paths::KeyHash;
use npf_turn::wait_turn;
use npf_types::{Key, Way};
use std::sync::Wait;

/// A note that names no place.
const NO_PLACE: u64 = 0;

/// A copy of the slot's connection with the keys that it holds, or none where none is Live there. The pass owns all reader places, so it has
/// seen all that there is.
pub(crate) fn copy_slot<L: Law, H: KeyHash>(
    rt: &impl Wait,
    cells: &Cells<L, H>,
    pass: &mut CellPass<L>,
    slot: u32,
) -> Option<Kept<L::State>>
    requires own { IsPassIn cells.now pass.old }
    requires legal { IsPass L.meaning (cell_pass pass.old.seat.me.0) }
    requires sole { (cell_pass pass.old.seat.me.0).places ≡ all_places }
    requires exists { slot < cells.now.table.shared.key.slots }
    requires turnless { pass.old.seat.me.0.turn ≡ None }
    requires unlocked { pass.old.seat.me.0.trie.locks ≡ [] }
    ensures own { IsPassIn cells.now pass.new }
    ensures copied { HasCopied L.meaning slot result pass.old.seat.me pass.new.seat.me }
{
    wait_turn(rt, cells, pass, slot);
    cells.see(pass);
    let running = cells.exchange(pass, slot, None);
    cells.exchange(pass, slot, running);
    let kept = copy_running(cells, pass, slot, running);
    cells.end_turn(pass, slot, &TurnAct::Nothing);
    kept
}

// A copy of the connection whose flow the slot holds, if any. The pass has the slot's turn.
fn copy_running<L: Law, H: KeyHash>(
    cells: &Cells<L, H>,
    pass: &mut CellPass<L>,
    slot: u32,
    running: Option<(L::State, u64)>,
) -> Option<Kept<L::State>>
    requires own { IsPassIn cells.now pass.old }
    requires sole { (cell_pass pass.old.seat.me.0).places ≡ all_places }
    requires exists { slot < cells.now.table.shared.key.slots }
    requires found { FoundInSlot L.meaning slot running pass.old.seat.me.0 }
    ensures own { IsPassIn cells.now pass.new }
    ensures copied { HasCopied L.meaning slot result pass.old.seat.me pass.new.seat.me }
{
    let Some(found) = running else {
        return None;
    };
    let inc = cells.load_inc(pass, slot);
    let forward = copy_key(cells, pass, slot, Way::Forward);
    let port = copy_key(cells, pass, slot, Way::Port);
    let backward = copy_key(cells, pass, slot, Way::Backward);
    Some(Kept {
        id: ConnId { slot, inc },
        forward,
        port,
        backward,
        state: found.0,
    })
}

// The key that the slot's Live connection holds of this way, if any. The pass has its turn.
fn copy_key<L: Law, H: KeyHash>(
    cells: &Cells<L, H>,
    pass: &mut CellPass<L>,
    slot: u32,
    way: Way,
) -> Option<Key>
    requires own { IsPassIn cells.now pass.old }
    requires sole { (cell_pass pass.old.seat.me.0).places ≡ all_places }
    requires exists { slot < cells.now.table.shared.key.slots }
    requires live { HasLiveOne slot pass.old.seat.me.0 }
    ensures own { IsPassIn cells.now pass.new }
    ensures copies { CopiesKey L.meaning slot way result pass.old.seat.me pass.new.seat.me }
{
    if cells.load_word(pass, Pool::Slots, slot, note_field(way)) == NO_PLACE {
        return None;
    }
    Some(Key([
        cells.load_key(pass, slot, way, 0),
        cells.load_key(pass, slot, way, 1),
        cells.load_key(pass, slot, way, 2),
        cells.load_key(pass, slot, way, 3),
        cells.load_key(pass, slot, way, 4),
    ]))
}
