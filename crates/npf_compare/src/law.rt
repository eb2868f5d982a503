// What the absence of differences is for. The function does nothing: it is a theorem.
ghost use Rattle.npf_compare.specs.Difference.{NoDifferenceIsAlike};

/// Where two configurations have no difference, they treat each packet that there can be alike, but for what a map writes.
pub fn no_difference_is_alike()
    ensures { NoDifferenceIsAlike }
{}
