// A connection that lost its keys is let go.
ghost use Rattle.std.specs.Prelude.{◌<◌, Contains};
ghost use Rattle.npf_cells.specs.Cells.{IsPassIn};
ghost use Rattle.npf_cells_takes.specs.PrivateKinds.{HasSeenBare};
ghost use Rattle.npf_turn.specs.Done.{HasLetGo};

use npf_cells::{CellPass, Cells, Pool};
use npf_core::{ConnId, Law};
use npf_paths::KeyHash;

/// The field of the first note among a connection's words.
const FIRST_NOTE: u32 = 18;

/// A note of this and more has an epoch.
const EPOCHS: u64 = 1 << 63;

/// Lets a connection go that the pass killed, and has seen without keys: its first note has the epoch from now on, and it is nobody's. Who
/// looks a key up later doesn't find it, so two epochs later nobody speaks of it any more.
pub fn let_go<L: Law, H: KeyHash>(cells: &Cells<L, H>, pass: &mut CellPass<L>, id: ConnId)
    requires own { IsPassIn cells.now pass.old }
    requires exists { id.slot < cells.now.table.shared.key.slots }
    requires killed { Contains pass.old.seat.me.0.pools.kills id }
    requires bare { HasSeenBare L.meaning pass.old.seat.me.0 id }
    ensures own { IsPassIn cells.now pass.new }
    ensures gone { HasLetGo id pass.old.seat.me pass.new.seat.me }
{
    let epoch = cells.load_epoch(pass);
    cells.store_private(pass, Pool::Slots, id.slot, FIRST_NOTE, EPOCHS + epoch);
}
