// The kinds of moves of a pass.
use crate::offer::Gathered;
use crate::view::ReassView;
use atomic_table::{Join, Play, Split};

/// A pass gives up a place.
pub(crate) struct GivesPlace;

impl Split<ReassView> for GivesPlace {
    ghost use Rattle.npf_reass.specs.Moves.{gives_place, given_pass_view};

    ghost left = { gives_place };

    ghost right = { given_pass_view };
}

/// A pass takes another in.
pub(crate) struct TakesPlaceIn;

impl Join<ReassView> for TakesPlaceIn {
    ghost use Rattle.npf_reass.specs.Moves.{takes_pass_in, emptied_view};

    ghost both = { takes_pass_in };

    ghost spent = { emptied_view };
}

/// A new pass gets its number.
pub(crate) struct PlaceBorn;

impl Play<Gathered, ReassView> for PlaceBorn {
    ghost use Rattle.npf_reass.specs.Moves.{IsBornPass};

    ghost then = { IsBornPass };
}

/// A pass reads what another was told.
pub(crate) struct ReadsSets;

impl Play<Gathered, ReassView> for ReadsSets {
    ghost use Rattle.npf_reass.specs.Moves.{HasReadSight};

    ghost then = { HasReadSight };
}
