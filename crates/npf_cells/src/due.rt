// Whether the flow that a slot holds has run out, looked at where it lies: under the slot's turn nobody else writes it.
use crate::cells::{CellPass, Cells};
use npf_core::Law;
use npf_paths::KeyHash;

impl<L: Law, H: KeyHash> Cells<L, H> {
    ghost use Rattle.std.specs.Prelude.{◌<◌};
    ghost use Rattle.npf_cells.specs.Cells.{IsPassIn};
    ghost use Rattle.npf_cells.specs.Due.{FindsDue};
    ghost use Rattle.npf_cells_turns.specs.TurnKinds.{HasSlotTurn};

    /// Whether the flow that the slot holds is due at that time; no where it holds none. The flow stays where it is.
    pub fn is_due(&self, pass: &mut CellPass<L>, slot: u32, now: u64) -> bool
        requires own { IsPassIn self.now pass.old }
        requires slot { slot < self.now.table.shared.key.slots }
        requires turn { HasSlotTurn pass.old.seat.me.0 slot }
        ensures own { IsPassIn self.now pass.new }
        ensures finds { FindsDue L.meaning slot now result pass.old.seat.me pass.new.seat.me }
    {
        match pass.seat.slot_mut(&self.table.shared, slot as usize) {
            Some(running) => L::due(&running.0, now),
            None => false,
        }
    }
}
