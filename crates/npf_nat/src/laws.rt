// What follows of the definitions of a map's change: each is a theorem about what `plan`, `drawn`
// and `npt66` equal.
ghost use Rattle.npf_nat.specs.Laws.{AnswerIsRestored, NetmapComesBack, Npt66ComesBack, Npt66IsNeutral};

/// The answer to a translated packet, translated by the change of the answers, goes to the ends of
/// the packet as it came.
pub fn answer_is_restored()
    ensures { AnswerIsRestored }
{}

/// An address of a static map's block is itself again when it is translated there and back.
pub fn static_map_comes_back()
    ensures netmap { NetmapComesBack }
    ensures npt66 { Npt66ComesBack }
{}

/// A prefix translation keeps the sum of an address's words in one's complement.
pub fn npt66_is_neutral()
    ensures { Npt66IsNeutral }
{}
