// The steps on the pools' words and on a pass's own words keep the rule, and tell what they say.
ghost use Rattle.npf_cells_words.specs.declared.layout.Layout.{Layout};
ghost use Rattle.npf_cells_takes.specs.TakesLaw.{KeepsTakes};

use npf_core::Law;
use npf_paths::KeyHash;

/// The steps on the pools' words and on a pass's own words keep the rule, and tell what they say.
pub fn takes_law<L: Law, H: KeyHash>()
    ensures keeps { (layout : Layout) → KeepsTakes L.meaning H.digest layout }
{}
