// What the part on the trie says of passes. The function does nothing: it is a theorem.
ghost use Rattle.std.specs.Prelude.{ℕ};
ghost use Rattle.npf_types.specs.declared.key.Key.{Key};
ghost use Rattle.npf_cells_words.specs.declared.layout.Layout.{Layout};
ghost use Rattle.npf_cells_leaves.specs.LeavesLaw.{HangsInOnePlace, StandsInPublished};
ghost use Rattle.npf_cells_leaves.specs.TakingOff.{TakingOffKeepsTrie};

/// The leaves law: the node in which a pass stands was published, and no node hangs in two places. Where an emptied node is taken off, in
/// which no pass is, the part holds of the nodes but this one.
pub fn leaves_law<S>()
    ensures stands { (digest : Key → ℕ) (layout : Layout) → StandsInPublished S digest layout }
    ensures hangs { (digest : Key → ℕ) (layout : Layout) → HangsInOnePlace S digest layout }
    ensures taken_off { (digest : Key → ℕ) (layout : Layout) → TakingOffKeepsTrie S digest layout }
{}
