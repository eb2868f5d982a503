// What follows of an explanation. The function does nothing: it is a theorem. By it the points at which the slots of a full table were
// claimed are found where the table answers, and hold for the packet as a whole.
ghost use Rattle.npf_engine.specs.Handles.{ExplainsInLonger};

/// What explains a packet's outcome to the pass that worked on it explains it in each longer legal history whose further entries
/// aren't the packet's: its entries there are those that the pass made, but for the keys that were given back.
pub fn explanation_lasts()
    ensures { ExplainsInLonger }
{}
