// The rule of the table, and how a call ends.
use crate::contents::Contents;
use crate::view::View;
use atomic_table::{Play, TableRule};
use npf_core::{Act, ConnId, Law};
use std::marker::{Brand, PhantomData};

pub(crate) type CallView<L: Law> = View<L::State, L::Arg, L::Reply>;

/// The rule of the table.
pub struct OneTurnRule<L: Law> {
    law: PhantomData<L>,
}

impl<L: Law> TableRule<Contents<L::State>, View<L::State, L::Arg, L::Reply>, u32>
    for OneTurnRule<L> {
    ghost use Rattle.npf_oneturn.specs.Rule.{IsRuled, first_view};

    ghost holds = { IsRuled L.meaning };

    ghost first = { first_view };
}

/// A try to take the turn.
pub(crate) struct Takes<L: Law> {
    law: PhantomData<L>,
}

impl<L: Law> Play<Contents<L::State>, View<L::State, L::Arg, L::Reply>> for Takes<L> {
    ghost use Rattle.npf_oneturn.specs.Taking.{TakesOrNot};

    ghost then = { TakesOrNot L.meaning };
}

/// How a call ends.
#[derive(Clone, Copy)]
pub enum CallEnding<S, A> {
    /// The pass is in a stay.
    Enters,
    /// It is in none.
    Leaves,
    /// The machine was asked for nothing.
    Nothing,
    /// The machine was asked for this act.
    Asks(Act<S, A>),
    /// A connection that it was building is given up.
    Abandons(ConnId),
    /// So many connections that are due at that time are killed.
    Expires { now: u64, count: u64 },
    /// What is Dead is freed.
    Collects,
}
