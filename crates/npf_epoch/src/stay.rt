// A stay in the table: its begin and its end.
ghost use Rattle.std.specs.Prelude.{◌≡◌, []};
ghost use Rattle.npf_cells_pins.specs.declared.pin.Pin.TheVariants.{Idle};
ghost use Rattle.npf_cells_rule.specs.Views.{with_epochs};
ghost use Rattle.npf_cells_moves.specs.Kinds.{unpinned};
ghost use Rattle.npf_cells.specs.Cells.{IsPassIn};
ghost use Rattle.npf_cells_rule.specs.Passes.{IsProtected};
ghost use Rattle.npf_epoch.specs.Stays.{HasEntered};

use npf_cells::{CellPass, Cells};
use npf_core::Law;
use npf_paths::KeyHash;

/// Begins a stay: what can be reached from now on isn't used again before the pass leaves.
pub fn enter<L: Law, H: KeyHash>(cells: &Cells<L, H>, pass: &mut CellPass<L>)
    requires own { IsPassIn cells.now pass.old }
    requires idle { pass.old.seat.me.0.epochs.pin ≡ Idle }
    ensures own { IsPassIn cells.now pass.new }
    ensures enters { HasEntered pass.old.seat.me.0.epochs pass.new.seat.me.0.epochs }
    ensures protected { IsProtected pass.new.seat.me.0.epochs.pin }
    ensures unmoved { pass.new.seat.me.0.epochs.raises ≡ pass.old.seat.me.0.epochs.raises }
    ensures same { pass.new.seat.me ≡ with_epochs pass.old.seat.me pass.new.seat.me.0.epochs }
{
    let epoch = cells.load_epoch(pass);
    cells.pin(pass, epoch);
    cells.protect(pass);
}

/// Ends a stay, and with it what the pass read in it.
pub fn leave<L: Law, H: KeyHash>(cells: &Cells<L, H>, pass: &mut CellPass<L>)
    requires own { IsPassIn cells.now pass.old }
    requires pinned { ¬ (pass.old.seat.me.0.epochs.pin ≡ Idle) }
    requires unlocked { pass.old.seat.me.0.trie.locks ≡ [] }
    ensures own { IsPassIn cells.now pass.new }
    ensures unmoved { pass.new.seat.me.0.epochs.raises ≡ pass.old.seat.me.0.epochs.raises }
    ensures next { pass.new.seat.me ≡ unpinned pass.old.seat.me }
{
    cells.unpin(pass);
}
