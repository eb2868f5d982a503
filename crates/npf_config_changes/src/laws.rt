// What the relations that changes answer allow: each function is a theorem about them, and does nothing.
ghost use Rattle.npf_config_changes.specs.ChangeLaws.{OneAddition, OneFlush, OneRemoval, SettledAddition, SettledRemoval};

/// Rules that are taken out leave one configuration, or are refused for one fault.
pub fn one_removal()
    ensures one_removal { OneRemoval }
    ensures one_flush { OneFlush }
{}

/// An entry is added or taken out, or it is refused for one fault, and never both.
pub fn settled_entries()
    ensures addition { SettledAddition }
    ensures removal { SettledRemoval }
{}

/// The rule that a text writes is added in one way, or it is refused for faults that are told alike, and never both.
pub fn one_addition()
    ensures { OneAddition }
{}
