// A try to raise the epoch. Whether it succeeds is told by what the pass met, the readers that its scan found behind and the epoch of its
// last step, and the count of raises says that a try which fails raised nothing.
ghost use Rattle.std.specs.Prelude.{◌≡◌, ◌↔◌, ◌⊎◌, ◌+◌, ◌≤◌, ◌<◌, ◌==◌, ◌||◌, true, false, [], length, if◌then◌else◌};
ghost use Rattle.npf_connections.specs.Pass.{all_places};
ghost use Rattle.npf_cells_pins.specs.declared.pin.Pin.TheVariants.{Idle};
ghost use Rattle.npf_cells_pins.specs.Epochs.{HasScannedAll};
ghost use Rattle.npf_cells_rule.specs.Views.{with_epochs};
ghost use Rattle.npf_cells.specs.Cells.{IsPassIn};
ghost use Rattle.npf_connections.specs.Worn.{last_epoch};
ghost use Rattle.npf_epoch.specs.Tries.{CanRaise, IsHindered, scanning_on};

use npf_cells::{CellPass, Cells, LAST_EPOCH, READERS};
use npf_core::Law;
use npf_paths::KeyHash;

/// Raises the epoch by one where no reader is pinned in an older one. Answers whether this call did; where a reader hindered it, its word
/// stood so. A pass in no stay that owns all reader places fails at the last epoch alone.
pub fn try_advance<L: Law, H: KeyHash>(cells: &Cells<L, H>, pass: &mut CellPass<L>) -> bool
    requires own { IsPassIn cells.now pass.old }
    ensures own { IsPassIn cells.now pass.new }
    ensures same { pass.new.seat.me ≡ with_epochs pass.old.seat.me pass.new.seat.me.0.epochs }
    ensures pin { pass.new.seat.me.0.epochs.pin ≡ pass.old.seat.me.0.epochs.pin }
    ensures moved { pass.new.seat.me.0.epochs.raises ≡ pass.old.seat.me.0.epochs.raises + (if result then 1 else 0) }
    ensures answers { (result ≡ true) ↔ CanRaise pass.new.seat.me.0.epochs }
    ensures hindered { (pass.new.seat.me.0.epochs.behind ≡ []) ⊎ IsHindered L.meaning H.digest cells.now.table.shared.key pass.old.seat.me.0 pass.new.seat.me.0.epochs.loaded }
    ensures scanned { result ≡ true → HasScannedAll pass.new.seat.me.0.epochs }
    ensures raised { result ≡ true → pass.new.seat.me.0.epochs.loaded + 1 ≤ pass.new.seat.me.0.epochs.known }
    ensures loaded { pass.old.seat.me.0.epochs.known ≤ pass.new.seat.me.0.epochs.loaded }
    ensures known { pass.old.seat.me.0.epochs.known ≤ pass.new.seat.me.0.epochs.known }
    ensures reached { pass.new.seat.me.0.epochs.loaded ≤ pass.new.seat.me.0.epochs.known }
    ensures greatest { pass.new.seat.me.0.epochs.loaded ≤ pass.new.seat.me.0.epochs.greatest }
    ensures later { pass.old.seat.me.0.epochs.greatest ≤ pass.new.seat.me.0.epochs.greatest }
    ensures most { pass.old.seat.me.0.epochs.greatest ≤ last_epoch → pass.new.seat.me.0.epochs.greatest ≤ last_epoch }
    ensures sole { length pass.old.seat.me.0.seats.readers ≡ all_places → pass.old.seat.me.0.epochs.pin ≡ Idle → result ≡ false → pass.new.seat.me.0.epochs.loaded ≡ last_epoch }
{
    let epoch = cells.load_epoch(pass);
    if epoch == LAST_EPOCH {
        return false;
    }
    if !scan_readers(cells, pass, epoch) {
        return false;
    }
    cells.advance(pass, epoch)
}

/// Scans the readers, up to one that is pinned in another epoch than was loaded. Answers whether there was none.
pub fn scan_readers<L: Law, H: KeyHash>(
    cells: &Cells<L, H>,
    pass: &mut CellPass<L>,
    epoch: u64,
) -> bool
    requires own { IsPassIn cells.now pass.old }
    requires loaded { pass.old.seat.me.0.epochs.loaded ≡ epoch }
    requires below { epoch < last_epoch }
    requires begun { pass.old.seat.me.0.epochs.behind ≡ [] }
    ensures own { IsPassIn cells.now pass.new }
    ensures next { pass.new.seat.me ≡ with_epochs pass.old.seat.me (scanning_on pass.old.seat.me.0.epochs pass.new.seat.me.0.epochs) }
    ensures all { result ≡ true → HasScannedAll pass.new.seat.me.0.epochs }
    ensures answers { (result ≡ true) ↔ (pass.new.seat.me.0.epochs.behind ≡ []) }
    ensures hindered { result ≡ false → IsHindered L.meaning H.digest cells.now.table.shared.key pass.old.seat.me.0 epoch }
{
    for reader in 0..READERS {
        let found = cells.scan_reader(pass, reader);
        if !is_passed(found, epoch) {
            return false;
        }
    }
    true
}

// Whether a reader word is idle or pinned in this epoch.
fn is_passed(found: u64, epoch: u64) -> bool
    requires { epoch < last_epoch }
    ensures { result ≡ ((found == 0) || (found == epoch + 1)) }
{
    found == 0 || found == epoch + 1
}
