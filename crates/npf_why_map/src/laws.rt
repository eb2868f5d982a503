// What holds of every text. The functions do nothing: each is a theorem.
ghost use Rattle.npf_why_map.specs.Laws.{EachBadMapHasReason, EachReasonIsOfMap, ReasonsAreOfBadMaps};

/// A map has a reason exactly where a check has a fault of it.
pub fn reasons_are_of_bad_maps()
    ensures { ReasonsAreOfBadMaps }
{}

/// At the place of each fault of a map that can't be there is a reason.
pub fn each_bad_map_has_reason()
    ensures { EachBadMapHasReason }
{}

/// Each reason is so of a map that is written at its place.
pub fn each_reason_is_of_map()
    ensures { EachReasonIsOfMap }
{}
