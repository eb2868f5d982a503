// Connections started, stepped and killed, each under one turn.
//
// Who kills forgets the epoch that it loaded, so a pass with several kills loads it once behind the last, and its scan of the readers
// begins anew. That a slot has nothing due is learned by `see`, which makes no entry: the pass sees the history as it is while it has the
// turn.
ghost use Rattle.std.specs.Prelude.{◌≡◌, ◌<◌, None, [], Contains};
ghost use Rattle.npf_connections.specs.Pass.{Knows};
ghost use Rattle.npf_cells.specs.Cells.{IsPassIn};
ghost use Rattle.npf_cells_rule.specs.Passes.{cell_pass};
ghost use Rattle.npf_cells_turns.specs.EndKinds.{HasBareNotes};
ghost use Rattle.npf_turn.specs.Done.{HasStepped, HasStarted, HasKilled, HasExpired};

use crate::turn::wait_turn;
use npf_cells::{CellPass, Cells, PHASE, Pool, TurnAct};
use npf_core::{ConnId, Law, Stepped};
use npf_paths::KeyHash;
use npf_types::Way;
use std::sync::Wait;

/// The phases of a connection that is Live, and of one that is Dead.
const LIVE: u64 = 1;

const DEAD: u64 = 2;

/// A connection that the pass is building is Live from now on, with this flow, for the packet `n`. The pass has stored 0 as the note of each
/// way of which it holds no key.
pub fn start<L: Law, H: KeyHash>(
    rt: &impl Wait,
    cells: &Cells<L, H>,
    pass: &mut CellPass<L>,
    id: ConnId,
    n: u64,
    init: L::State,
)
    requires own { IsPassIn cells.now pass.old }
    requires exists { id.slot < cells.now.table.shared.key.slots }
    requires turnless { pass.old.seat.me.0.turn ≡ None }
    requires unlocked { pass.old.seat.me.0.trie.locks ≡ [] }
    requires builds { Contains pass.old.seat.me.0.pools.builds id }
    requires stored { ¬ Contains pass.old.seat.me.0.pools.unstored id.slot }
    requires notes { HasBareNotes L.meaning pass.old.seat.me.0 id }
    ensures own { IsPassIn cells.now pass.new }
    ensures starts { HasStarted L.meaning id n init pass.old.seat.me pass.new.seat.me }
{
    wait_turn(rt, cells, pass, id.slot);
    cells.exchange(pass, id.slot, Some((init, 1)));
    cells.store_private(pass, Pool::Slots, id.slot, PHASE, LIVE);
    cells.end_turn(pass, id.slot, &TurnAct::Start { id, n, init });
}

/// The next step of a connection's flow, by the packet `n`, which is of that way. `NotLive` exactly where that incarnation isn't Live at
/// the entry.
pub fn step<L: Law, H: KeyHash>(
    rt: &impl Wait,
    cells: &Cells<L, H>,
    pass: &mut CellPass<L>,
    id: ConnId,
    n: u64,
    way: Way,
    arg: &L::Arg,
) -> Stepped<L::Reply>
    requires own { IsPassIn cells.now pass.old }
    requires exists { id.slot < cells.now.table.shared.key.slots }
    requires turnless { pass.old.seat.me.0.turn ≡ None }
    requires unlocked { pass.old.seat.me.0.trie.locks ≡ [] }
    requires known { Knows (cell_pass pass.old.seat.me.0) id }
    ensures own { IsPassIn cells.now pass.new }
    ensures steps { HasStepped L.meaning id n way arg.now result pass.old.seat.me pass.new.seat.me }
{
    wait_turn(rt, cells, pass, id.slot);
    let stepped = cells.step_flow(pass, id.slot, way, arg);
    cells.end_turn(pass, id.slot, &TurnAct::Step { id, n, way, arg });
    stepped
}

/// Kills a connection that the pass is building, which has stored 0 as the note of each way of which it holds no key. It keeps its keys, and is
/// the pass's own until it lets it go.
pub fn kill<L: Law, H: KeyHash>(
    rt: &impl Wait,
    cells: &Cells<L, H>,
    pass: &mut CellPass<L>,
    id: ConnId,
)
    requires own { IsPassIn cells.now pass.old }
    requires exists { id.slot < cells.now.table.shared.key.slots }
    requires turnless { pass.old.seat.me.0.turn ≡ None }
    requires unlocked { pass.old.seat.me.0.trie.locks ≡ [] }
    requires builds { Contains pass.old.seat.me.0.pools.builds id }
    requires stored { ¬ Contains pass.old.seat.me.0.pools.unstored id.slot }
    requires notes { HasBareNotes L.meaning pass.old.seat.me.0 id }
    ensures own { IsPassIn cells.now pass.new }
    ensures kills { HasKilled L.meaning id pass.old.seat.me pass.new.seat.me }
{
    wait_turn(rt, cells, pass, id.slot);
    cells.exchange(pass, id.slot, None);
    cells.store_private(pass, Pool::Slots, id.slot, PHASE, DEAD);
    cells.end_turn(pass, id.slot, &TurnAct::Abandoned { id });
}

/// Kills the slot's connection where it is Live and due at that time, and answers it. It keeps its keys, and is the pass's own until it lets
/// it go. Otherwise the pass has seen of the slot that none is due there.
pub fn expire<L: Law, H: KeyHash>(
    rt: &impl Wait,
    cells: &Cells<L, H>,
    pass: &mut CellPass<L>,
    slot: u32,
    now: u64,
) -> Option<ConnId>
    requires own { IsPassIn cells.now pass.old }
    requires exists { slot < cells.now.table.shared.key.slots }
    requires turnless { pass.old.seat.me.0.turn ≡ None }
    requires unlocked { pass.old.seat.me.0.trie.locks ≡ [] }
    ensures own { IsPassIn cells.now pass.new }
    ensures expires { HasExpired L.meaning slot now result pass.old.seat.me pass.new.seat.me }
{
    wait_turn(rt, cells, pass, slot);
    if !cells.is_due(pass, slot, now) {
        cells.see(pass);
        cells.end_turn(pass, slot, &TurnAct::Nothing);
        return None;
    }
    let inc = cells.load_inc(pass, slot);
    let id = ConnId { slot, inc };
    cells.exchange(pass, slot, None);
    cells.store_private(pass, Pool::Slots, slot, PHASE, DEAD);
    cells.end_turn(pass, slot, &TurnAct::Expired { id, now });
    Some(id)
}
