// What becomes of the paths through a trie of `npf_paths` where a node in whose places nothing
// stands is taken off: they end where it hung. It has no code, and the function does nothing: it is
// a theorem.
//
// So emptied nodes may come back while readers walk. A mark stands where the node hung; a path that
// has come to the mark, or that was in the node before, held no key there. Once nobody can be in
// the node any more the mark gives way to an empty place.
#![tactic(auto)]

ghost use Rattle.npf_paths_pruning.specs.PruningLaw.{ClearingFills, PrunedIsUnmet, PruningIsTold, PruningKeepsLevels};

/// The prune law. Where an emptied node is taken off the place in which it hung, and no node put
/// there: each place that a path then meets it met before; each that it met before it still meets,
/// or that is one of the node's, behind the place where the node hung; and the ends are those of
/// before, but that paths which ended in the node now end in that place. Each place keeps its
/// level, and a node that hung nowhere else is met by no path any more. A mark that gives way to an
/// empty place is a place filled, which leaves each path as it was.
pub fn prune_law()
    ensures told { PruningIsTold }
    ensures levels { PruningKeepsLevels }
    ensures unmet { PrunedIsUnmet }
    ensures cleared { ClearingFills }
{}
