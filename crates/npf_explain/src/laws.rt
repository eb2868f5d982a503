// What holds of every explanation. The functions do nothing: each is a theorem.
ghost use Rattle.npf_explain.specs.ExplanationLaw.{DecidesExactly, MapAppliesExactly, MisfitsExactly, OverriddenExactly, ReachedExactly};

/// Exactly the rule that decides is told so.
pub fn decides_exactly()
    ensures { DecidesExactly }
{}

/// Exactly a rule that matches, in whose group another one decides, is told to be overridden by that.
pub fn overridden_exactly()
    ensures { OverriddenExactly }
{}

/// Exactly of a rule that is asked and doesn't match a part is told, the first that the packet doesn't fit.
pub fn misfits_exactly()
    ensures { MisfitsExactly }
{}

/// Exactly a group behind one that has the answer is told not to be reached.
pub fn reached_exactly()
    ensures { ReachedExactly }
{}

/// Exactly the map that translates is told to apply.
pub fn map_applies_exactly()
    ensures { MapAppliesExactly }
{}
