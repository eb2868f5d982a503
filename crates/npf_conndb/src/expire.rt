// Connections that are due are killed.
ghost use Rattle.std.specs.Prelude.{◌≡◌, ◌≤◌, ◌<◌};
ghost use Rattle.npf_connections.specs.Pass.{IsPass};
ghost use Rattle.npf_cells.specs.Cells.{IsPassIn};
ghost use Rattle.npf_cells_rule.specs.Passes.{IsProtected, cell_pass};
ghost use Rattle.npf_conndb.specs.Between.{IsBetweenCalls, StaysBetween};
ghost use Rattle.npf_conndb.specs.Expiries.{ExpiresIn};

use crate::endings::end_killed;
use crate::vacancy::vacant_slots;
use npf_cells::{CellPass, Cells};
use npf_core::Law;
use npf_paths::KeyHash;
use npf_turn::expire;
use std::sync::Wait;

/// Kills each connection that is due at that time, and gives up its keys. Answers how many it killed.
pub(crate) fn expire_all<L: Law, H: KeyHash>(
    rt: &impl Wait,
    cells: &Cells<L, H>,
    pass: &mut CellPass<L>,
    now: u64,
) -> u64
    requires own { IsPassIn cells.now pass.old }
    requires legal { IsPass L.meaning (cell_pass pass.old.seat.me.0) }
    requires between { IsBetweenCalls L.meaning pass.old.seat.me.0 }
    requires protected { IsProtected pass.old.seat.me.0.epochs.pin }
    ensures own { IsPassIn cells.now pass.new }
    ensures stays { StaysBetween L.meaning pass.old.seat.me.0 pass.new.seat.me.0 }
    ensures expires { ExpiresIn L.meaning now (λ slot. slot < cells.now.table.shared.key.slots) result (cell_pass pass.old.seat.me.0) (cell_pass pass.new.seat.me.0) }
{
    let slots = cells.layout().slots;
    let mut count = 0;
    let mut slot = 0;
    while slot < slots {
        let vacant = vacant_slots(cells, pass, slot);
        if vacant > 0 {
            slot += vacant;
            continue;
        }
        count += expire_slot(rt, cells, pass, slot, now);
        slot += 1;
    }
    count
}

// The same for one slot under its turn: it kills one or none.
fn expire_slot<L: Law, H: KeyHash>(
    rt: &impl Wait,
    cells: &Cells<L, H>,
    pass: &mut CellPass<L>,
    slot: u32,
    now: u64,
) -> u64
    requires own { IsPassIn cells.now pass.old }
    requires legal { IsPass L.meaning (cell_pass pass.old.seat.me.0) }
    requires between { IsBetweenCalls L.meaning pass.old.seat.me.0 }
    requires protected { IsProtected pass.old.seat.me.0.epochs.pin }
    requires exists { slot < cells.now.table.shared.key.slots }
    ensures own { IsPassIn cells.now pass.new }
    ensures few { result ≤ 1 }
    ensures stays { StaysBetween L.meaning pass.old.seat.me.0 pass.new.seat.me.0 }
    ensures expires { ExpiresIn L.meaning now (λ s. s ≡ slot) result (cell_pass pass.old.seat.me.0) (cell_pass pass.new.seat.me.0) }
{
    let Some(id) = expire(rt, cells, pass, slot, now) else {
        return 0;
    };
    end_killed(rt, cells, pass, id);
    1
}
