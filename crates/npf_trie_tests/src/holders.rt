// Connections that are being built and hold a key.
ghost use Rattle.npf_cells.specs.Cells.{IsPassIn};
ghost use Rattle.npf_trie_tests.specs.Hands.{IsEmptyHanded};

use crate::by_protocol::ByProtocol;
use npf_cells::{CellPass, Cells};
use npf_core::{ConnId, Found, Held};
use npf_flow::FlowLaw;
use npf_pool_beginning::begin;
use npf_trie::{hold, look};
use npf_types::{Key, Way};
use std::sync::Wait;

/// The first connection in a slot.
pub(crate) fn first_in(slot: u32) -> ConnId {
    ConnId { slot, inc: 1 }
}

/// The same as the holder of a key that it opened with.
pub(crate) fn holder_in(slot: u32) -> Found {
    Found {
        id: first_in(slot),
        way: Way::Forward,
    }
}

/// Begins a connection and holds the key for it. None where no slot is left.
pub(crate) fn open(
    rt: &impl Wait,
    cells: &Cells<FlowLaw, ByProtocol>,
    pass: &mut CellPass<FlowLaw>,
    key: Key,
) -> Option<(ConnId, Held)>
    requires own { IsPassIn cells.now pass.old }
    requires hands { IsEmptyHanded pass.old.seat.me.0 }
    ensures own { IsPassIn cells.now pass.new }
    ensures hands { IsEmptyHanded pass.new.seat.me.0 }
{
    let id = begin(rt, cells, pass)?;
    let held = hold(rt, cells, pass, id, key, Way::Forward);
    Some((id, held))
}

/// Who holds the key.
pub(crate) fn find(
    cells: &Cells<FlowLaw, ByProtocol>,
    pass: &mut CellPass<FlowLaw>,
    key: Key,
) -> Option<Found>
    requires own { IsPassIn cells.now pass.old }
    requires hands { IsEmptyHanded pass.old.seat.me.0 }
    ensures own { IsPassIn cells.now pass.new }
    ensures hands { IsEmptyHanded pass.new.seat.me.0 }
{
    look(cells, pass, 9, key)
}
