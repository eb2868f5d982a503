// Connections that a pass begins to build in the table without locks, for the tests and the benchmark of the trie: no layer above it is
// there yet that begins them.
//
// The contract of `begin`: the connection is in its slot, its incarnation is the next one and is stored, and a key of each way may be held for it.
#![tactic(auto)]

ghost use Rattle.std.specs.Prelude.{◌≡◌, IfSome};
ghost use Rattle.npf_cells.specs.Cells.{IsPassIn};
ghost use Rattle.npf_cells_rule.specs.Passes.{IsProtected};
ghost use Rattle.npf_pool_beginning.specs.Begins.{HasBegun, KeepsStay};

use npf_cells::{CellPass, Cells, Pool};
use npf_core::{ConnId, Law};
use npf_paths::KeyHash;
use npf_pool::take;
use std::sync::Wait;

/// The place of a connection's incarnation among its words.
const INCARNATION: u32 = 1;

/// Takes a slot for the packet 7, and stores the incarnation of its connection. Answers the connection by the word as it is then
/// loaded, or None where no slot is left.
pub fn begin<L: Law, H: KeyHash>(
    rt: &impl Wait,
    cells: &Cells<L, H>,
    pass: &mut CellPass<L>,
) -> Option<ConnId>
    requires own { IsPassIn cells.now pass.old }
    requires protected { IsProtected pass.old.seat.me.0.epochs.pin }
    ensures own { IsPassIn cells.now pass.new }
    ensures begun { IfSome result (λ id. HasBegun L.meaning cells.now.table.shared.key pass.new.seat.me.0 id) }
    ensures keeps { KeepsStay pass.old.seat.me.0 pass.new.seat.me.0 }
{
    let slot = take(rt, cells, pass, Pool::Slots, 7)?;
    let before = cells.load_inc(pass, slot);
    cells.store_private(pass, Pool::Slots, slot, INCARNATION, before + 1);
    let inc = cells.load_inc(pass, slot);
    Some(ConnId { slot, inc })
}
