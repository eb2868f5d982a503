// The turn of a slot. A pass has one at a time, so none waits for a turn while it has one, and none for itself. Nor does it wait for one while
// it has a lock: whoever has the turn may wait for that lock, and then neither would ever go on.
ghost use Rattle.std.specs.Prelude.{◌≡◌, ◌<◌, None, []};
ghost use Rattle.npf_cells.specs.Cells.{IsPassIn};
ghost use Rattle.npf_cells_turns.specs.TurnKinds.{HasTaken};

use npf_cells::{CellPass, Cells};
use npf_core::Law;
use npf_paths::KeyHash;
use std::sync::Wait;
use std::thread::yield_now;

/// Gets the slot's turn, once no other pass has it, for a pass that has no lock. After each refused try another thread may run.
pub fn wait_turn<L: Law, H: KeyHash>(
    rt: &impl Wait,
    cells: &Cells<L, H>,
    pass: &mut CellPass<L>,
    slot: u32,
)
    requires own { IsPassIn cells.now pass.old }
    requires slot { slot < cells.now.table.shared.key.slots }
    requires turnless { pass.old.seat.me.0.turn ≡ None }
    requires unlocked { pass.old.seat.me.0.trie.locks ≡ [] }
    ensures own { IsPassIn cells.now pass.new }
    ensures takes { HasTaken slot pass.old.seat.me pass.new.seat.me }
{
    for _ in rt.forever() {
        if cells.try_turn(pass, slot) {
            return;
        }
        yield_now();
    }
    unreachable!()
}
