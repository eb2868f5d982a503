// What holds of every run whose fragments are put together. The function does nothing: it is a
// theorem.
ghost use Rattle.npf_reass_run.specs.Laws.{OneSet};

/// A piece is in one set alone, so its fate is one.
pub fn one_set()
    ensures { OneSet }
{}
