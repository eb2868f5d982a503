// The rule of the sets.
use crate::offer::{Gathered, ReassSize};
use crate::view::ReassView;
use atomic_table::{Play, TableRule};

/// The rule of the object.
pub struct GatheringRule;

impl TableRule<Gathered, ReassView, ReassSize> for GatheringRule {
    ghost use Rattle.npf_reass.specs.Gathering.{IsGathering, first_reass_view};

    ghost holds = { IsGathering };

    ghost first = { first_reass_view };
}

/// A try to take the turn of a class.
pub(crate) struct TakesClassTurn;

impl Play<Gathered, ReassView> for TakesClassTurn {
    ghost use Rattle.npf_reass.specs.Turn.{TakesTurn};

    ghost then = { TakesTurn };
}
