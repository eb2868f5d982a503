// The turn of a slot: a try to take it, and its end.
ghost use Rattle.std.specs.Prelude.{◌≡◌};

use crate::cells::{CellPass, Cells};
use crate::rule::Running;
use crate::told::StepTold;
use atomic_table::Play;
use npf_cells_rule::CellView;
use npf_cells_turns::TurnAct;
use npf_cells_words::{Pool, TURN};
use npf_core::Law;
use npf_paths::KeyHash;
use std::marker::{Brand, PhantomData};

/// The word of a turn that nobody has, and of one that a pass has.
const FREE: u64 = 0;

const TAKEN: u64 = 1;

pub(crate) struct TakesTurn<L: Law, H: KeyHash, W> {
    law: PhantomData<L>,
    hash: PhantomData<H>,
    aim: PhantomData<W>,
}

impl<L: Law, H: KeyHash, W: StepTold> Play<Running<L::State>, CellView<L::State, L::Arg, L::Reply>>
    for TakesTurn<L, H, W> {
    ghost use Rattle.npf_cells_turns.specs.TurnKinds.{TriesTurn};

    ghost then = { TriesTurn L.meaning H.digest W.told.layout W.told.number };
}

// What the end of a turn is told.
pub(crate) trait ToldAct<S, A> {
    ghost use Rattle.npf_cells_turns.specs.declared.act.TurnAct.{TurnAct};

    ghost act: { TurnAct S A };
}

impl<S, A> ToldAct<S, A> for Brand {
    ghost use Rattle.npf_cells_turns.specs.declared.act.TurnAct.TheVariants.{Nothing};

    ghost act = { Nothing };
}

pub(crate) struct GivesTurn<L: Law, W> {
    law: PhantomData<L>,
    aim: PhantomData<W>,
}

impl<L: Law, W: ToldAct<L::State, L::Arg>> Play<
    Running<L::State>,
    CellView<L::State, L::Arg, L::Reply>,
> for GivesTurn<L, W> {
    ghost use Rattle.npf_cells_turns.specs.EndKinds.{EndsTurn};

    ghost then = { EndsTurn L.meaning W.act };
}

impl<L: Law, H: KeyHash> Cells<L, H> {
    ghost use Rattle.std.specs.Prelude.{◌≡◌, ◌<◌, true, false, None, [], ◌∷◌};
    ghost use Rattle.npf_cells.specs.Cells.{IsPassIn};
    ghost use Rattle.npf_cells_turns.specs.EndKinds.{MayEndBy, TellsEnd};
    ghost use Rattle.npf_cells_turns.specs.TurnKinds.{GotTurn, HasTaken, HasSlotTurn};

    /// Tries to get a slot's turn. Answers whether it did: false where a pass had it in some state that keeps the rule. The pass that got
    /// it carries what the slot held, which it moves by `exchange`.
    pub fn try_turn(&self, pass: &mut CellPass<L>, slot: u32) -> bool
        requires own { IsPassIn self.now pass.old }
        requires slot { slot < self.now.table.shared.key.slots }
        requires turnless { pass.old.seat.me.0.turn ≡ None }
        ensures own { IsPassIn self.now pass.new }
        ensures takes { result ≡ true → HasTaken slot pass.old.seat.me pass.new.seat.me }
        ensures same { result ≡ false → pass.new.seat.me ≡ pass.old.seat.me }
        ensures answers { GotTurn L.meaning H.digest self.now.table.shared.key pass.old.seat.me.0 slot result }
    {
        self.try_turn_as::<Brand>(pass, slot)
    }

    fn try_turn_as<W: StepTold>(&self, pass: &mut CellPass<L>, slot: u32) -> bool
        requires own { IsPassIn self.now pass.old }
        requires slot { slot < self.now.table.shared.key.slots }
        requires turnless { pass.old.seat.me.0.turn ≡ None }
        requires aim { (W.told.layout ≡ self.now.table.shared.key) × (W.told.number ≡ slot) }
        ensures own { IsPassIn self.now pass.new }
        ensures takes { result ≡ true → HasTaken slot pass.old.seat.me pass.new.seat.me }
        ensures same { result ≡ false → pass.new.seat.me ≡ pass.old.seat.me }
        ensures answers { GotTurn L.meaning H.digest self.now.table.shared.key pass.old.seat.me.0 slot result }
    {
        let word = self.layout.field_place(Pool::Slots, slot, TURN);
        let found = self
            .table
            .shared
            .compare_exchange::<TakesTurn<L, H, W>>(&mut pass.seat, word, FREE, TAKEN);
        found == FREE
    }

    /// Moves what the slot holds out, and this in, under its turn: the flow and the count of steps of a Live connection, or none. The first
    /// time it gives what the slot held when the pass got the turn.
    pub fn exchange(
        &self,
        pass: &mut CellPass<L>,
        slot: u32,
        flow: Option<(L::State, u64)>,
    ) -> Option<(L::State, u64)>
        requires own { IsPassIn self.now pass.old }
        requires turn { HasSlotTurn pass.old.seat.me.0 slot }
        ensures own { IsPassIn self.now pass.new }
        ensures gives { pass.old.seat.me.1 ≡ (slot, result) ∷ [] }
        ensures next { pass.new.seat.me ≡ (pass.old.seat.me.0, (slot, flow) ∷ []) }
    {
        self.table
            .shared
            .exchange(&mut pass.seat, slot as usize, flow)
    }

    /// Gives the slot's turn up, and makes the act's entry, if any. The slot then holds what the pass carried, and its phase is as the pass
    /// stored it: both have to be as the act leaves the connection.
    pub fn end_turn(&self, pass: &mut CellPass<L>, slot: u32, act: &TurnAct<'_, L::State, L::Arg>)
        requires own { IsPassIn self.now pass.old }
        requires slot { slot < self.now.table.shared.key.slots }
        requires may { MayEndBy L.meaning act.now slot pass.old.seat.me }
        ensures own { IsPassIn self.now pass.new }
        ensures tells { TellsEnd L.meaning act.now pass.old.seat.me pass.new.seat.me }
    {
        self.end_turn_as::<Brand>(pass, slot, act);
    }

    fn end_turn_as<W: ToldAct<L::State, L::Arg>>(
        &self,
        pass: &mut CellPass<L>,
        slot: u32,
        act: &TurnAct<'_, L::State, L::Arg>,
    )
        requires own { IsPassIn self.now pass.old }
        requires slot { slot < self.now.table.shared.key.slots }
        requires may { MayEndBy L.meaning act.now slot pass.old.seat.me }
        requires aim { W.act ≡ act.now }
        ensures own { IsPassIn self.now pass.new }
        ensures tells { TellsEnd L.meaning act.now pass.old.seat.me pass.new.seat.me }
    {
        let word = self.layout.field_place(Pool::Slots, slot, TURN);
        self.table
            .shared
            .store::<GivesTurn<L, W>>(&mut pass.seat, word, FREE);
    }
}
