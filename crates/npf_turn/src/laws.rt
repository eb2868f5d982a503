// What a pass has seen of a connection that it killed. The function does nothing: it is a theorem.
ghost use Rattle.npf_turn.specs.KillLaw.{KillsBare};

use npf_core::Law;

/// The kill law: a connection that a pass built, had seen without keys and killed, it has seen Dead and without keys, so it may let it go.
pub fn kill_law<L: Law>()
    ensures bare { KillsBare L.meaning }
{}
