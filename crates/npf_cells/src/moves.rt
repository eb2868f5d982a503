// The kinds of moves of a pass: split, joined, born, read.
use crate::rule::Running;
use atomic_table::{Join, Play, Split};
use npf_cells_rule::CellView;
use npf_core::Law;
use std::marker::PhantomData;

/// A pass gives up a reader place.
pub(crate) struct Gives;

impl<S, A, R> Split<CellView<S, A, R>> for Gives {
    ghost use Rattle.npf_cells_moves.specs.Moves.{gives_reader, given_view};

    ghost left = { gives_reader };

    ghost right = { given_view };
}

/// A pass takes another in.
pub(crate) struct TakesIn;

impl<S, A, R> Join<CellView<S, A, R>> for TakesIn {
    ghost use Rattle.npf_cells_moves.specs.Moves.{takes_in};
    ghost use Rattle.npf_cells_rule.specs.Views.{nothing_left};

    ghost both = { takes_in };

    ghost spent = { nothing_left };
}

/// A new pass gets its number.
pub(crate) struct GetsBorn<L: Law> {
    law: PhantomData<L>,
}

impl<L: Law> Play<Option<(L::State, u64)>, CellView<L::State, L::Arg, L::Reply>> for GetsBorn<L> {
    ghost use Rattle.npf_cells_moves.specs.Moves.{IsBorn};

    ghost then = { IsBorn L.meaning };
}

/// A pass reads what another was told.
pub(crate) struct Reads<L: Law> {
    law: PhantomData<L>,
}

impl<L: Law> Play<Option<(L::State, u64)>, CellView<L::State, L::Arg, L::Reply>> for Reads<L> {
    ghost use Rattle.npf_cells_moves.specs.Moves.{HasRead};

    ghost then = { HasRead L.meaning };
}
