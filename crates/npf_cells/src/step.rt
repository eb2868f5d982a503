// A step of the flow that a slot holds, where it lies: under the slot's turn nobody else reads or writes it.
use crate::cells::{CellPass, Cells};
use npf_core::{Law, Stepped};
use npf_paths::KeyHash;
use npf_types::Way;

impl<L: Law, H: KeyHash> Cells<L, H> {
    ghost use Rattle.std.specs.Prelude.{◌<◌};
    ghost use Rattle.npf_cells.specs.Cells.{IsPassIn};
    ghost use Rattle.npf_cells.specs.Step.{StepsFlow};
    ghost use Rattle.npf_cells_turns.specs.TurnKinds.{HasSlotTurn};

    /// The flow that the slot holds goes on by a packet of that way, and has one step more, under the slot's turn. `NotLive` where the slot
    /// holds none, and then it stays so.
    #[inline(always)]
    pub fn step_flow(
        &self,
        pass: &mut CellPass<L>,
        slot: u32,
        way: Way,
        arg: &L::Arg,
    ) -> Stepped<L::Reply>
        requires own { IsPassIn self.now pass.old }
        requires slot { slot < self.now.table.shared.key.slots }
        requires turn { HasSlotTurn pass.old.seat.me.0 slot }
        ensures own { IsPassIn self.now pass.new }
        ensures steps { StepsFlow L.meaning slot way arg.now result pass.old.seat.me pass.new.seat.me }
    {
        match pass.seat.slot_mut(&self.table.shared, slot as usize) {
            Some(running) => {
                let place = running.1;
                let reply = L::advance(&mut running.0, way, arg);
                running.1 = place.saturating_add(1);
                Stepped::Done { reply, place }
            }
            None => Stepped::NotLive,
        }
    }
}
