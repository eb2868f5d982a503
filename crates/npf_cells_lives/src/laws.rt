// What the parts on connections, on locks and on turns say of any two passes. The function does nothing: it is a theorem.
ghost use Rattle.npf_cells_words.specs.declared.layout.Layout.{Layout};
ghost use Rattle.npf_cells_lives.specs.LivesLaw.{BuildInOneSlot, LockAlone, TurnAlone};

use npf_core::Law;

/// The lives law: one pass at most is building in a slot, one at most has a lock, and one at most the turn of a slot.
pub fn lives_law<L: Law>()
    ensures builders { (layout : Layout) → BuildInOneSlot L.meaning layout }
    ensures locks { (layout : Layout) → LockAlone layout }
    ensures turns { (layout : Layout) → TurnAlone L.State layout }
{}
