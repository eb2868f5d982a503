// Slots that nobody holds.
ghost use Rattle.std.specs.Prelude.{◌≡◌, ◌≤◌, ◌<◌, ◌+◌, ℕ};
ghost use Rattle.std.specs.Int.{bit_at};
ghost use Rattle.npf_core.specs.declared.stage.Stage.TheVariants.{Vacant};
ghost use Rattle.npf_core.specs.History.{state_of};
ghost use Rattle.npf_cells.specs.Cells.{IsPassIn};
ghost use Rattle.npf_pool.specs.Takes.{HasSeenMore};

use npf_cells::{CellPass, Cells, Pool};
use npf_core::Law;
use npf_paths::KeyHash;

/// How many slots from this one on nobody has claimed, up to the last whose bit is in the same word. The pass then has seen all of the history.
pub(crate) fn vacant_slots<L: Law, H: KeyHash>(
    cells: &Cells<L, H>,
    pass: &mut CellPass<L>,
    slot: u32,
) -> u32
    requires own { IsPassIn cells.now pass.old }
    requires exists { slot < cells.now.table.shared.key.slots }
    ensures own { IsPassIn cells.now pass.new }
    ensures sees { HasSeenMore L.meaning pass.old.seat.me pass.new.seat.me }
    ensures within { slot + result ≤ cells.now.table.shared.key.slots }
    ensures vacant { (p : ℕ) → slot ≤ p → p < slot + result → ((state_of L.meaning pass.new.seat.me.0.seats.history).slot p).stage ≡ Vacant }
{
    let claimed = cells.load_pool(pass, Pool::Slots, slot / 64);
    clear_places(claimed, slot % 64).min(cells.layout().slots - slot)
}

// How many places from this one on are clear in a word, up to its last.
fn clear_places(word: u64, place: u32) -> u32
    requires { place < 64 }
    ensures within { place + result ≤ 64 }
    ensures clear { (i : ℕ) → place ≤ i → i < place + result → bit_at word i ≡ 0 }
{
    (word >> place).trailing_zeros().min(64 - place)
}
