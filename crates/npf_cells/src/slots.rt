// A slot is claimed.
ghost use Rattle.std.specs.Prelude.{◌≡◌};

use crate::cells::{CellPass, Cells};
use crate::pools::{is_clear, place_bit};
use crate::rule::Running;
use crate::told::StepTold;
use atomic_table::Play;
use npf_cells_rule::CellView;
use npf_cells_words::Pool;
use npf_core::Law;
use npf_paths::KeyHash;
use std::marker::{Brand, PhantomData};

pub(crate) struct TakesSlot<L: Law, H: KeyHash, W> {
    law: PhantomData<L>,
    hash: PhantomData<H>,
    aim: PhantomData<W>,
}

impl<L: Law, H: KeyHash, W: StepTold> Play<Running<L::State>, CellView<L::State, L::Arg, L::Reply>>
    for TakesSlot<L, H, W> {
    ghost use Rattle.npf_cells_takes.specs.SlotKinds.{ClaimsSlot};

    ghost then = { ClaimsSlot L.meaning H.digest W.told.layout W.told.packet W.told.number };
}

impl<L: Law, H: KeyHash> Cells<L, H> {
    ghost use Rattle.std.specs.Prelude.{◌≡◌, ◌<◌, ◌↔◌, ◌/◌, ◌%◌, true, false};
    ghost use Rattle.std.specs.Int.{bit_at};
    ghost use Rattle.npf_cells_words.specs.declared.layout.Pool.TheVariants.{Slots};
    ghost use Rattle.npf_cells_words.specs.Layout.{place_word};
    ghost use Rattle.npf_cells.specs.Cells.{IsPassIn};
    ghost use Rattle.npf_cells_rule.specs.Passes.{IsProtected};
    ghost use Rattle.npf_cells_rule.specs.Stood.{StoodSo};
    ghost use Rattle.npf_cells_takes.specs.SlotKinds.{HasClaimed, HasSeenSlots};

    // Claims a slot for the packet n, unless it is claimed. Answers whether it did.
    pub(crate) fn claim_slot(&self, pass: &mut CellPass<L>, slot: u32, n: u64) -> bool
        requires own { IsPassIn self.now pass.old }
        requires slot { slot < self.now.table.shared.key.slots }
        requires protected { IsProtected pass.old.seat.me.0.epochs.pin }
        ensures own { IsPassIn self.now pass.new }
        ensures claims { result ≡ true → HasClaimed L.meaning n slot pass.old.seat.me pass.new.seat.me }
        ensures loses { result ≡ false → HasSeenSlots L.meaning self.now.table.shared.key (slot / 64) pass.new.seat.me.0.pools.found pass.old.seat.me pass.new.seat.me }
        ensures stood { StoodSo L.meaning H.digest self.now.table.shared.key pass.old.seat.me.0 (place_word self.now.table.shared.key Slots slot) pass.new.seat.me.0.pools.found }
        ensures answers { (result ≡ true) ↔ (bit_at pass.new.seat.me.0.pools.found (slot % 64) ≡ 0) }
    {
        self.claim_slot_as::<Brand>(pass, slot, n)
    }

    fn claim_slot_as<W: StepTold>(&self, pass: &mut CellPass<L>, slot: u32, n: u64) -> bool
        requires own { IsPassIn self.now pass.old }
        requires slot { slot < self.now.table.shared.key.slots }
        requires protected { IsProtected pass.old.seat.me.0.epochs.pin }
        requires aim { (W.told.layout ≡ self.now.table.shared.key) × (W.told.number ≡ slot) × (W.told.packet ≡ n) }
        ensures own { IsPassIn self.now pass.new }
        ensures claims { result ≡ true → HasClaimed L.meaning n slot pass.old.seat.me pass.new.seat.me }
        ensures loses { result ≡ false → HasSeenSlots L.meaning self.now.table.shared.key (slot / 64) pass.new.seat.me.0.pools.found pass.old.seat.me pass.new.seat.me }
        ensures stood { StoodSo L.meaning H.digest self.now.table.shared.key pass.old.seat.me.0 (place_word self.now.table.shared.key Slots slot) pass.new.seat.me.0.pools.found }
        ensures answers { (result ≡ true) ↔ (bit_at pass.new.seat.me.0.pools.found (slot % 64) ≡ 0) }
    {
        let place = self.layout.pool_place(Pool::Slots, slot / 64);
        let found = self
            .table
            .shared
            .fetch_or::<TakesSlot<L, H, W>>(&mut pass.seat, place, place_bit(slot));
        is_clear(found, slot)
    }
}
