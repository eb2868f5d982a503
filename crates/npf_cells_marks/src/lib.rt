// The part of the rule on marks, by which emptied nodes of the trie without locks come back, and what keeps it. The calls are those of `npf_cells`
// (marks.rt). The function does nothing: it is a theorem.
//
// Readers walk while a node is taken off. So whoever has its lock, and the lock of its parent's place, marks the node once nothing stands in its
// places; then the mark takes the node's place, and the node is let go with an epoch that the pass loaded since. Whoever may still be in the node
// is protected with that epoch or an earlier one. Two epochs later nobody is, and a pass may clear the mark: the node is that pass's.
#![tactic(auto)]

ghost use Rattle.npf_cells_words.specs.declared.layout.Layout.{Layout};
ghost use Rattle.npf_cells_marks.specs.MarksLaw.{MarkStandsOnce, MarkedHoldsBack, MarkerIsAlone};
ghost use Rattle.npf_cells_marks.specs.StepsLaw.{ClearingKeepsMarks, FreeingKeepsMarks, LearningKeepsMarks, LeavingKeepsMarks, LoadingKeepsMarks, LockingKeepsMarks, MarkingKeepsMarks, OwningKeepsMarks, PlacingKeepsMarks, StoringKeepsMarks, UnlockingKeepsMarks};

/// The marks law. The mark of a node stands in one place, one pass at most marked the node, and while a pass may be in a node that was let go the
/// table's epoch is at most one more than that in its state. The part stays through each step that leaves its words, loads the epoch, loads the
/// words of an empty node or of a mark, gets a lock, frees one or lets a marked node go, marks a node, puts the mark in its place, clears it, frees
/// the state of a node that came back, or stores in a place: under its lock, where neither a node nor a mark stood, or in a node of the pass's own.
pub fn marks_law()
    ensures once { (layout : Layout) → MarkStandsOnce layout }
    ensures markers { (layout : Layout) → MarkerIsAlone layout }
    ensures back { (layout : Layout) → MarkedHoldsBack layout }
    ensures leaves { (layout : Layout) → LeavingKeepsMarks layout }
    ensures loads { (layout : Layout) → LoadingKeepsMarks layout }
    ensures learns { (layout : Layout) → LearningKeepsMarks layout }
    ensures locks { (layout : Layout) → LockingKeepsMarks layout }
    ensures unlocks { (layout : Layout) → UnlockingKeepsMarks layout }
    ensures marks { (layout : Layout) → MarkingKeepsMarks layout }
    ensures places { (layout : Layout) → PlacingKeepsMarks layout }
    ensures clears { (layout : Layout) → ClearingKeepsMarks layout }
    ensures frees { (layout : Layout) → FreeingKeepsMarks layout }
    ensures stores { (layout : Layout) → StoringKeepsMarks layout }
    ensures owns { (layout : Layout) → OwningKeepsMarks layout }
{}
