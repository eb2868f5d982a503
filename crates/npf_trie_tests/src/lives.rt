// The lives of one slot's connections, and the words that stand there.
ghost use Rattle.std.specs.Prelude.{◌≡◌, ◌<◌, IfSome};
ghost use Rattle.npf_flow.specs.Flows.{flow_law};
ghost use Rattle.npf_cells.specs.Cells.{IsPassIn};
ghost use Rattle.npf_trie_tests.specs.Built.{IsBuilt};
ghost use Rattle.npf_trie_tests.specs.Hands.{IsEmptyHanded, HasFreeHands};

use crate::answers::{put, same};
use crate::building::{abandon, build, collect};
use crate::by_protocol::ByProtocol;
use crate::turning::{FLOW, LATE, place_of, step_by};
use npf_cells::{CellPass, Cells, PHASE, Pool};
use npf_cells_words::note_field;
use npf_core::ConnId;
use npf_epoch::{enter, leave};
use npf_flow::FlowLaw;
use npf_pool_beginning::begin;
use npf_trie::look;
use npf_turn::{end_killed, expire, start};
use npf_types::{Key, Way};
use std::alloc::Global;
use std::sync::Wait;
use std::test::Fail;

// UDP from port 40000 of 10.0.0.1 to port 53 of 8.8.8.8, and its answer. In their half-bytes the two part at level 23.
const FORWARD: Key = Key([0x0411_0001_9c40_0035, 0, 0x0a00_0001, 0, 0x0808_0808]);

const BACKWARD: Key = Key([0x0411_0001_0035_9c40, 0, 0x0808_0808, 0, 0x0a00_0001]);

const NODES: u32 = 23;

// The phase and the notes of the first slot.
fn tell_words(
    cells: &Cells<FlowLaw, ByProtocol>,
    pass: &mut CellPass<FlowLaw>,
    told: &mut String,
) -> Result<(), Fail>
    requires own { IsPassIn cells.now pass.old }
    requires exists { 0 < cells.now.table.shared.key.slots }
    ensures own { IsPassIn cells.now pass.new }
    ensures same { pass.new.seat.me ≡ pass.old.seat.me }
{
    let phase = cells.load_word(pass, Pool::Slots, 0, PHASE);
    let forward = cells.load_word(pass, Pool::Slots, 0, note_field(Way::Forward));
    let backward = cells.load_word(pass, Pool::Slots, 0, note_field(Way::Backward));
    let port = cells.load_word(pass, Pool::Slots, 0, note_field(Way::Port));
    put(told, &[phase, forward, backward, port])
}

/// Ends the first slot's connection, which is due long since.
pub(crate) fn expire_late(
    rt: &impl Wait,
    cells: &Cells<FlowLaw, ByProtocol>,
    pass: &mut CellPass<FlowLaw>,
) -> Option<ConnId>
    requires own { IsPassIn cells.now pass.old }
    requires empty { IsEmptyHanded pass.old.seat.me.0 }
    requires hands { HasFreeHands pass.old.seat.me.0 }
    requires exists { 0 < cells.now.table.shared.key.slots }
    ensures own { IsPassIn cells.now pass.new }
    ensures empty { IsEmptyHanded pass.new.seat.me.0 }
    ensures hands { HasFreeHands pass.new.seat.me.0 }
{
    let id = expire(rt, cells, pass, 0, LATE)?;
    end_killed(rt, cells, pass, id);
    Some(id)
}

// Starts what the pass is building.
fn start_built(
    rt: &impl Wait,
    cells: &Cells<FlowLaw, ByProtocol>,
    pass: &mut CellPass<FlowLaw>,
    built: Option<ConnId>,
)
    requires own { IsPassIn cells.now pass.old }
    requires empty { IsEmptyHanded pass.old.seat.me.0 }
    requires hands { HasFreeHands pass.old.seat.me.0 }
    requires built { IfSome built (λ id. IsBuilt flow_law cells.now.table.shared.key pass.old.seat.me.0 id) }
    ensures own { IsPassIn cells.now pass.new }
    ensures empty { IsEmptyHanded pass.new.seat.me.0 }
    ensures hands { HasFreeHands pass.new.seat.me.0 }
{
    if let Some(id) = built {
        start(rt, cells, pass, id, 7, FLOW);
    }
}

// A connection that is started, steps once, and expires.
fn tell_started(
    rt: &impl Wait,
    cells: &Cells<FlowLaw, ByProtocol>,
    pass: &mut CellPass<FlowLaw>,
    told: &mut String,
) -> Result<(), Fail>
    requires own { IsPassIn cells.now pass.old }
    requires empty { IsEmptyHanded pass.old.seat.me.0 }
    requires hands { HasFreeHands pass.old.seat.me.0 }
    requires exists { 0 < cells.now.table.shared.key.slots }
    ensures own { IsPassIn cells.now pass.new }
    ensures empty { IsEmptyHanded pass.new.seat.me.0 }
    ensures hands { HasFreeHands pass.new.seat.me.0 }
{
    let built = build(rt, cells, pass, FORWARD, BACKWARD);
    tell_words(cells, pass, told)?;
    start_built(rt, cells, pass, built);
    let place = place_of(step_by(rt, cells, pass, BACKWARD));
    let expired = expire_late(rt, cells, pass);
    put(told, &(built, place, expired))?;
    tell_words(cells, pass, told)?;
    put(told, &look(cells, pass, 9, BACKWARD))
}

// It is freed two epochs later. Then the same keys are held for another connection, which is given up before it is started. There are exactly the
// nodes that the two keys need.
fn tell_lives(rt: &impl Wait, alloc: Global, told: &mut String) -> Result<(), Fail> {
    let (cells, mut pass) = Cells::<FlowLaw, ByProtocol>::new(alloc, 1, NODES)?;
    enter(&cells, &mut pass);
    tell_started(rt, &cells, &mut pass, told)?;
    leave(&cells, &mut pass);
    let freed = (collect(&cells, &mut pass), collect(&cells, &mut pass));
    put(told, &freed)?;
    tell_words(&cells, &mut pass, told)?;
    enter(&cells, &mut pass);
    let second = build(rt, &cells, &mut pass, FORWARD, BACKWARD);
    if let Some(id) = second {
        abandon(rt, &cells, &mut pass, id);
    }
    leave(&cells, &mut pass);
    let freed = (collect(&cells, &mut pass), collect(&cells, &mut pass));
    enter(&cells, &mut pass);
    put(told, &(second, freed, begin(rt, &cells, &mut pass)))
}

#[test]
fn slot_is_used_again(rt: HostRuntime) -> Result<(), Fail> {
    let mut told = String::new(rt.alloc());
    tell_lives(&rt, rt.alloc(), &mut told)?;
    // The note of a key is 65, 16 times the number of its leaf's node, and the leaf's digit there: 9 of the one, and 0 of the other. Once the
    // connection is let go, the first is 2^63 and the epoch, which is 2.
    same(
        &rt,
        told.as_str(),
        "[0, 426, 417, 0]
(Some(ConnId { slot: 0, inc: 1 }), Some(1), Some(ConnId { slot: 0, inc: 1 }))
[2, 9223372036854775810, 417, 0]
None
(0, 1)
[0, 0, 417, 0]
(Some(ConnId { slot: 0, inc: 2 }), (0, 1), Some(ConnId { slot: 0, inc: 3 }))
",
    );
    Ok(())
}
