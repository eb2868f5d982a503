// What it means that nothing is told. The function does nothing: it is a theorem.
ghost use Rattle.npf_compare_maps.specs.MapDifference.{UntoldIsSame};

/// Where no difference is told, the maps of both configurations write the same into each packet that both pass alike.
pub fn untold_is_same()
    ensures { UntoldIsSame }
{}
