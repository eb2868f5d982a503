// The kinds of steps on epochs: loads, pins and raises.
use crate::rule::Running;
use crate::told::StepTold;
use atomic_table::Play;
use npf_cells_rule::CellView;
use npf_core::Law;
use npf_paths::KeyHash;
use std::marker::PhantomData;

/// A load of the epoch.
pub(crate) struct LoadsEpoch;

impl<F, S, A, R> Play<F, CellView<S, A, R>> for LoadsEpoch {
    ghost use Rattle.npf_cells_moves.specs.Kinds.{Loads};

    ghost then = { Loads };
}

/// A store of the own reader word, pinned.
pub(crate) struct PinsReader;

impl<F, S, A, R> Play<F, CellView<S, A, R>> for PinsReader {
    ghost use Rattle.npf_cells_moves.specs.Kinds.{Pins};

    ghost then = { Pins };
}

/// The load of the epoch after a pin.
pub(crate) struct ProtectsReader;

impl<F, S, A, R> Play<F, CellView<S, A, R>> for ProtectsReader {
    ghost use Rattle.npf_cells_moves.specs.Kinds.{Protects};

    ghost then = { Protects };
}

/// A store of the own reader word, idle.
pub(crate) struct UnpinsReader;

impl<F, S, A, R> Play<F, CellView<S, A, R>> for UnpinsReader {
    ghost use Rattle.npf_cells_moves.specs.Kinds.{Unpins};

    ghost then = { Unpins };
}

/// A load of a reader word.
pub(crate) struct ScansReader<L: Law, H: KeyHash, W> {
    law: PhantomData<L>,
    hash: PhantomData<H>,
    aim: PhantomData<W>,
}

impl<L: Law, H: KeyHash, W: StepTold> Play<Running<L::State>, CellView<L::State, L::Arg, L::Reply>>
    for ScansReader<L, H, W> {
    ghost use Rattle.npf_cells_moves.specs.Kinds.{Scans};

    ghost then = { Scans L.meaning H.digest W.told.layout };
}

/// A try to raise the epoch.
pub(crate) struct AdvancesEpoch;

impl<F, S, A, R> Play<F, CellView<S, A, R>> for AdvancesEpoch {
    ghost use Rattle.npf_cells_moves.specs.Kinds.{RaisesEpoch};

    ghost then = { RaisesEpoch };
}
