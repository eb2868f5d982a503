// Slots freed. A slot's last incarnation is left Dead, since no other could follow.
ghost use Rattle.std.specs.Prelude.{◌≡◌, ◌<◌, ◌^◌, ◌↔◌, true, None, []};
ghost use Rattle.npf_cells.specs.Cells.{IsPassIn};
ghost use Rattle.npf_turn.specs.Reclaims.{HasReclaimed, IsLongLeft};

use npf_cells::{CellPass, Cells, PHASE, Pool, TurnAct};
use npf_core::{ConnId, Law};
use npf_paths::KeyHash;
use npf_types::Way;

/// The phases of a slot without a connection, and of one whose connection is Dead.
const VACANT: u64 = 0;

const DEAD: u64 = 2;

/// A note of this and more has an epoch.
const EPOCHS: u64 = 1 << 63;

/// Frees the slot's connection, and answers it, where it is Dead and was let go two epochs before the one that the pass loaded last, or
/// earlier, but not where it is the last that there can be. It waits for nobody.
pub fn reclaim<L: Law, H: KeyHash>(
    cells: &Cells<L, H>,
    pass: &mut CellPass<L>,
    slot: u32,
    epoch: u64,
) -> Option<ConnId>
    requires own { IsPassIn cells.now pass.old }
    requires exists { slot < cells.now.table.shared.key.slots }
    requires turnless { pass.old.seat.me.0.turn ≡ None }
    requires epoch { epoch ≡ pass.old.seat.me.0.epochs.loaded }
    requires reclaims { pass.old.seat.me.0.pools.reclaims ≡ [] }
    requires cleared { pass.old.seat.me.0.pools.cleared ≡ [] }
    ensures own { IsPassIn cells.now pass.new }
    ensures reclaims { HasReclaimed L.meaning H.digest cells.now.table.shared.key slot epoch result pass.old.seat.me pass.new.seat.me }
{
    if !cells.try_turn(pass, slot) {
        return None;
    }
    if cells.load_word(pass, Pool::Slots, slot, PHASE) != DEAD {
        cells.end_turn(pass, slot, &TurnAct::Nothing);
        return None;
    }
    let note = cells.load_note(pass, slot, Way::Forward);
    let inc = cells.load_inc(pass, slot);
    if !is_long_left(note, epoch) || inc == u64::MAX {
        cells.end_turn(pass, slot, &TurnAct::Nothing);
        return None;
    }
    let id = ConnId { slot, inc };
    cells.store_private(pass, Pool::Slots, slot, PHASE, VACANT);
    cells.end_turn(pass, slot, &TurnAct::Reclaim { id });
    cells.clear_note(pass, id);
    cells.free_slot(pass, id);
    Some(id)
}

// Whether a note says that its connection was let go two epochs before this one, or earlier.
pub(crate) fn is_long_left(note: u64, epoch: u64) -> bool
    requires epoch { epoch < 2 ^ 63 }
    ensures { (result ≡ true) ↔ IsLongLeft note epoch }
{
    note >= EPOCHS && note - EPOCHS + 2 <= epoch
}
