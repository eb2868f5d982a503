// What a step is told, by a type.
use std::marker::Brand;

// What a step is told, that its kind cites.
pub(crate) trait StepTold {
    ghost use Rattle.npf_cells.specs.Telling.{Telling};

    ghost told: { Telling };
}

impl StepTold for Brand {
    ghost use Rattle.npf_cells.specs.Telling.{untold};

    ghost told = { untold };
}
