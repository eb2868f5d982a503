// A connection that was killed is ended.
ghost use Rattle.std.specs.Prelude.{◌≡◌, ◌<◌};
ghost use Rattle.npf_core.specs.declared.stage.Stage.{Stage};
ghost use Rattle.npf_core.specs.History.{state_of};
ghost use Rattle.npf_core.specs.Machine.{stage_of};
ghost use Rattle.npf_connections.specs.Pass.{IsPass};
ghost use Rattle.npf_cells.specs.Cells.{IsPassIn};
ghost use Rattle.npf_cells_rule.specs.Passes.{IsProtected, cell_pass};
ghost use Rattle.npf_conndb.specs.Ends.{HasKilledOne, EndsKilled};

use npf_cells::{CellPass, Cells};
use npf_core::{ConnId, Law};
use npf_paths::KeyHash;
use npf_turn::{end_key, let_go};
use npf_types::Way;
use std::sync::Wait;

/// Gives up the keys of the one connection that the pass killed and hasn't let go, and lets it go.
pub(crate) fn end_killed<L: Law, H: KeyHash>(
    rt: &impl Wait,
    cells: &Cells<L, H>,
    pass: &mut CellPass<L>,
    id: ConnId,
)
    requires own { IsPassIn cells.now pass.old }
    requires exists { id.slot < cells.now.table.shared.key.slots }
    requires protected { IsProtected pass.old.seat.me.0.epochs.pin }
    requires legal { IsPass L.meaning (cell_pass pass.old.seat.me.0) }
    requires killed { HasKilledOne id pass.old.seat.me.0 }
    requires dead { stage_of (state_of L.meaning pass.old.seat.me.0.seats.history) id ≡ Stage.Dead }
    ensures own { IsPassIn cells.now pass.new }
    ensures ends { EndsKilled L.meaning id pass.old.seat.me pass.new.seat.me }
{
    end_key(rt, cells, pass, id, Way::Forward);
    end_key(rt, cells, pass, id, Way::Backward);
    end_key(rt, cells, pass, id, Way::Port);
    let_go(cells, pass, id);
}
