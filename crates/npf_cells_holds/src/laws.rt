// The steps on the places of the trie, on locks and on keys keep the rule, and tell what they say.
ghost use Rattle.npf_cells_words.specs.declared.layout.Layout.{Layout};
ghost use Rattle.npf_cells_holds.specs.HoldsLaw.{KeepsHolds};

use npf_core::Law;
use npf_paths::KeyHash;

/// The steps on the places of the trie, on locks and on keys keep the rule, and tell what they say.
pub fn holds_law<L: Law, H: KeyHash>()
    ensures keeps { (layout : Layout) → KeepsHolds L.meaning H.digest layout }
{}
