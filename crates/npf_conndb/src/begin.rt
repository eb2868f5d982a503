// A connection is begun in a vacant slot.
ghost use Rattle.std.specs.Prelude.{◌≡◌, ◌<◌, IfNone, IfSome};
ghost use Rattle.npf_cells.specs.Cells.{IsPassIn};
ghost use Rattle.npf_cells_rule.specs.Passes.{IsProtected, cell_pass};
ghost use Rattle.npf_connections.specs.Beginning.{IsFullBetween};
ghost use Rattle.npf_cells_words.specs.Layout.{note_field};
ghost use Rattle.npf_cells_takes.specs.PrivateKinds.{noted_in};
ghost use Rattle.npf_conndb.specs.Begins.{IsBegun, BuildsBare};
ghost use Rattle.npf_pool.specs.Takes.{HasSeenMore};

use npf_cells::{CellPass, Cells, Pool};
use npf_cells_words::note_field;
use npf_core::{ConnId, Law};
use npf_paths::KeyHash;
use npf_pool::take;
use npf_types::Way;
use std::sync::Wait;

/// The field of the incarnation among a connection's words.
const INCARNATION: u32 = 1;

/// Claims a slot for the packet `n`, and stores the incarnation of its next connection, and 0 as its notes. None where each slot was claimed
/// at some point of this call.
pub(crate) fn begin<L: Law, H: KeyHash>(
    rt: &impl Wait,
    cells: &Cells<L, H>,
    pass: &mut CellPass<L>,
    n: u64,
) -> Option<ConnId>
    requires own { IsPassIn cells.now pass.old }
    requires protected { IsProtected pass.old.seat.me.0.epochs.pin }
    ensures own { IsPassIn cells.now pass.new }
    ensures begins { IfSome result (λ id. IsBegun L.meaning n id pass.old.seat.me pass.new.seat.me) }
    ensures sees { IfNone result (HasSeenMore L.meaning pass.old.seat.me pass.new.seat.me) }
    ensures full { IfNone result (IsFullBetween L.meaning (cell_pass pass.old.seat.me.0) pass.new.seat.me.0.seats.history) }
{
    let slot = take(rt, cells, pass, Pool::Slots, n)?;
    let inc = cells.load_inc(pass, slot) + 1;
    cells.store_private(pass, Pool::Slots, slot, INCARNATION, inc);
    clear_note(cells, pass, slot, Way::Forward);
    clear_note(cells, pass, slot, Way::Backward);
    clear_note(cells, pass, slot, Way::Port);
    Some(ConnId { slot, inc })
}

// The note of a way is 0 from now on: what it said of an earlier connection is over.
fn clear_note<L: Law, H: KeyHash>(cells: &Cells<L, H>, pass: &mut CellPass<L>, slot: u32, way: Way)
    requires own { IsPassIn cells.now pass.old }
    requires exists { slot < cells.now.table.shared.key.slots }
    requires bare { BuildsBare L.meaning pass.old.seat.me.0 slot way }
    ensures own { IsPassIn cells.now pass.new }
    ensures next { pass.new.seat.me ≡ noted_in slot (note_field way) 0 pass.old.seat.me }
{
    cells.store_private(pass, Pool::Slots, slot, note_field(way), 0);
}
