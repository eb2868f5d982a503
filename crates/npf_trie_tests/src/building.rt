// Connections that are built with two keys, and what is left of them when they end.
ghost use Rattle.std.specs.Prelude.{IfSome};
ghost use Rattle.npf_flow.specs.Flows.{flow_law};
ghost use Rattle.npf_cells.specs.Cells.{IsPassIn};
ghost use Rattle.npf_trie_tests.specs.Built.{IsBuilt};
ghost use Rattle.npf_trie_tests.specs.Hands.{IsEmptyHanded, RestsEmptyHanded, HasFreeHands};

use crate::by_protocol::ByProtocol;
use npf_cells::{CellPass, Cells, Pool};
use npf_cells_words::note_field;
use npf_core::{ConnId, Held};
use npf_epoch::try_advance;
use npf_flow::FlowLaw;
use npf_pool_beginning::begin;
use npf_trie::hold;
use npf_turn::{end_killed, kill, reclaim};
use npf_types::{Key, Way};
use std::sync::Wait;

/// Begins a connection and holds both keys for it, the first as its forward one. None where no slot is left, or a key isn't held.
pub(crate) fn build(
    rt: &impl Wait,
    cells: &Cells<FlowLaw, ByProtocol>,
    pass: &mut CellPass<FlowLaw>,
    forward: Key,
    backward: Key,
) -> Option<ConnId>
    requires own { IsPassIn cells.now pass.old }
    requires empty { IsEmptyHanded pass.old.seat.me.0 }
    requires hands { HasFreeHands pass.old.seat.me.0 }
    ensures own { IsPassIn cells.now pass.new }
    ensures empty { IsEmptyHanded pass.new.seat.me.0 }
    ensures hands { HasFreeHands pass.new.seat.me.0 }
    ensures built { IfSome result (λ id. IsBuilt flow_law cells.now.table.shared.key pass.new.seat.me.0 id) }
{
    let id = begin(rt, cells, pass)?;
    // The note of the way without a key.
    cells.store_private(pass, Pool::Slots, id.slot, note_field(Way::Port), 0);
    let Held::Done = hold(rt, cells, pass, id, forward, Way::Forward) else {
        return None;
    };
    let Held::Done = hold(rt, cells, pass, id, backward, Way::Backward) else {
        return None;
    };
    Some(id)
}

/// Gives up a connection that the pass is building, with its keys, and lets it go.
pub(crate) fn abandon(
    rt: &impl Wait,
    cells: &Cells<FlowLaw, ByProtocol>,
    pass: &mut CellPass<FlowLaw>,
    id: ConnId,
)
    requires own { IsPassIn cells.now pass.old }
    requires empty { IsEmptyHanded pass.old.seat.me.0 }
    requires hands { HasFreeHands pass.old.seat.me.0 }
    requires built { IsBuilt flow_law cells.now.table.shared.key pass.old.seat.me.0 id }
    ensures own { IsPassIn cells.now pass.new }
    ensures empty { IsEmptyHanded pass.new.seat.me.0 }
    ensures hands { HasFreeHands pass.new.seat.me.0 }
{
    kill(rt, cells, pass, id);
    end_killed(rt, cells, pass, id);
}

/// Raises the epoch where no reader hinders it, and frees each connection that was let go two epochs before. Answers how many it freed.
pub(crate) fn collect(cells: &Cells<FlowLaw, ByProtocol>, pass: &mut CellPass<FlowLaw>) -> u32
    requires own { IsPassIn cells.now pass.old }
    requires rests { RestsEmptyHanded pass.old.seat.me.0 }
    requires hands { HasFreeHands pass.old.seat.me.0 }
    ensures own { IsPassIn cells.now pass.new }
    ensures rests { RestsEmptyHanded pass.new.seat.me.0 }
    ensures hands { HasFreeHands pass.new.seat.me.0 }
{
    try_advance(cells, pass);
    let epoch = cells.load_epoch(pass);
    let mut freed = 0u32;
    for slot in 0..cells.layout().slots {
        match reclaim(cells, pass, slot, epoch) {
            Some(_) => freed = freed.saturating_add(1),
            None => {}
        }
    }
    freed
}
