// A pass sees the whole history.
use crate::cells::{CellPass, Cells};
use crate::rule::Running;
use atomic_table::Play;
use npf_cells_rule::CellView;
use npf_cells_words::EPOCH;
use npf_core::Law;
use npf_paths::KeyHash;
use std::marker::PhantomData;

pub(crate) struct SeesAll<L: Law> {
    law: PhantomData<L>,
}

impl<L: Law> Play<Running<L::State>, CellView<L::State, L::Arg, L::Reply>> for SeesAll<L> {
    ghost use Rattle.npf_cells_turns.specs.SightKinds.{Sees};

    ghost then = { Sees L.meaning };
}

impl<L: Law, H: KeyHash> Cells<L, H> {
    ghost use Rattle.npf_cells.specs.Cells.{IsPassIn};
    ghost use Rattle.npf_cells_turns.specs.SightKinds.{HasSeen};

    /// The pass sees all of the history, to which it adds nothing.
    pub fn see(&self, pass: &mut CellPass<L>)
        requires own { IsPassIn self.now pass.old }
        ensures own { IsPassIn self.now pass.new }
        ensures sees { HasSeen L.meaning pass.old.seat.me pass.new.seat.me }
    {
        self.table.shared.load::<SeesAll<L>>(&mut pass.seat, EPOCH);
    }
}
