// The base's moves and the steps on the epoch and on the readers keep the rule, and tell what they say.
ghost use Rattle.npf_cells_words.specs.declared.layout.Layout.{Layout};
ghost use Rattle.npf_cells_moves.specs.MovesLaw.{KeepsMoves};

use npf_core::Law;
use npf_paths::KeyHash;

/// The base's moves and the steps on the epoch and on the readers keep the rule, and tell what they say.
pub fn moves_law<L: Law, H: KeyHash>()
    ensures keeps { (layout : Layout) → KeepsMoves L.meaning H.digest layout }
{}
