// What holds of each pass of a table under one turn. The function does nothing: it is a theorem.
ghost use Rattle.std.specs.Prelude.{◌≡◌};

use crate::one_turn::{OneTurn, OneTurnPass};
use npf_connections::Connections;
use npf_core::Law;

/// A pass shows no full sweep and no epoch. So a hold is never answered that there is no node, and after a collection by a pass that
/// owns all reader places nothing is Dead but where the last incarnation of a slot was claimed.
pub fn count_law<L: Law>(pass: &OneTurnPass<L>)
where
    L::State: Send,
    ensures sweeps { (⟦<OneTurn<L> as Connections<L>>⟧.view pass.now).sweeps ≡ 0 }
    ensures epoch { (⟦<OneTurn<L> as Connections<L>>⟧.view pass.now).epoch ≡ 0 }
{}
