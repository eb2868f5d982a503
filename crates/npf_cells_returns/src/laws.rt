// The steps by which emptied nodes come back keep the rule, and what the rule says of marks.
ghost use Rattle.npf_cells_words.specs.declared.layout.Layout.{Layout};
ghost use Rattle.npf_cells_returns.specs.MarkLaw.{MarkedNodesAreBare, MarkedNodesHoldBack, MarksHoldNone};
ghost use Rattle.npf_cells_returns.specs.ReturnsLaw.{KeepsReturns};

use npf_core::Law;
use npf_paths::KeyHash;

/// The steps by which emptied nodes come back keep the rule, and tell what they say.
pub fn returns_law<L: Law, H: KeyHash>()
    ensures keeps { (layout : Layout) → KeepsReturns L.meaning H.digest layout }
{}

/// The mark law: a key whose path comes to a mark has no holder; nothing stands in the places of a node whose mark stands; and while a pass may
/// be in a node that was let go with an epoch, the table's epoch is at most one more, so that the node isn't used again.
pub fn mark_law<L: Law>()
    ensures none { (layout : Layout) → MarksHoldNone L.meaning layout }
    ensures bare { (layout : Layout) → MarkedNodesAreBare L.meaning layout }
    ensures back { (layout : Layout) → MarkedNodesHoldBack L.meaning layout }
{}
