// The kinds of moves of a pass.
use crate::contents::Contents;
use crate::view::View;
use atomic_table::{Join, Play, Split};
use npf_core::Law;
use std::marker::PhantomData;

/// A pass gives up a reader place.
pub(crate) struct Cut;

impl<S, A, R> Split<View<S, A, R>> for Cut {
    ghost use Rattle.npf_oneturn.specs.Moves.{giver, newcomer};

    ghost left = { giver };

    ghost right = { newcomer };
}

/// A pass takes another in.
pub(crate) struct Merge;

impl<S, A, R> Join<View<S, A, R>> for Merge {
    ghost use Rattle.npf_oneturn.specs.Moves.{taker_in, spent_view};

    ghost both = { taker_in };

    ghost spent = { spent_view };
}

/// A new pass gets its number.
pub(crate) struct GetsNumber<L: Law> {
    law: PhantomData<L>,
}

impl<L: Law> Play<Contents<L::State>, View<L::State, L::Arg, L::Reply>> for GetsNumber<L> {
    ghost use Rattle.npf_oneturn.specs.Moves.{GetsNumber};

    ghost then = { GetsNumber L.meaning };
}

/// A pass reads what another was told.
pub(crate) struct Learns<L: Law> {
    law: PhantomData<L>,
}

impl<L: Law> Play<Contents<L::State>, View<L::State, L::Arg, L::Reply>> for Learns<L> {
    ghost use Rattle.npf_oneturn.specs.Moves.{Learns};

    ghost then = { Learns L.meaning };
}
