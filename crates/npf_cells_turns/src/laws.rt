// The steps on turns and on words that turns guard keep the rule, and tell what they say.
ghost use Rattle.npf_cells_words.specs.declared.layout.Layout.{Layout};
ghost use Rattle.npf_cells_turns.specs.TurnsLaw.{KeepsTurns};

use npf_core::Law;
use npf_paths::KeyHash;

/// The steps on turns and on words that turns guard keep the rule, and tell what they say.
pub fn turns_law<L: Law, H: KeyHash>()
    ensures keeps { (layout : Layout) → KeepsTurns L.meaning H.digest layout }
{}
