// What holds of every table between any two steps. The functions do nothing: each is a theorem.
ghost use Rattle.npf_cells_words.specs.declared.layout.Layout.{Layout};
ghost use Rattle.npf_cells_rule.specs.DeathLaw.{RestsHoldBack, SoleFindsLeft};
ghost use Rattle.npf_cells_rule.specs.TableLaw.{OwnsAlone, BuildsAlone, HoldsBack, CountsRaises, SoleRaises};
ghost use Rattle.npf_cells_rule.specs.Readers.{ReadersStandApart};
ghost use Rattle.npf_cells_rule.specs.NoteLaw.{BareNotesAreZero, NotesNameKeys};
ghost use Rattle.npf_cells_rule.specs.TrieLaw.{EndsNameHolders, LeavesAreKept, NodesAreKept};

use npf_core::Law;

/// The claim law: a node has one owner at most, and one pass at most is building in a slot.
pub fn claim_law<L: Law>()
    ensures alone { (layout : Layout) → OwnsAlone L.meaning layout }
    ensures builder { (layout : Layout) → BuildsAlone L.meaning layout }
{}

/// The protection law: while a pass is protected with the epoch that it loaded after its pin, the table's epoch is at most one more.
pub fn protection_law<L: Law>()
    ensures within { (layout : Layout) → HoldsBack L.meaning layout }
{}

/// The count law: no pass raises the epoch without counting it; so where one owns all reader places, the epoch is 2 and what it counts.
pub fn count_law<L: Law>()
    ensures counted { (layout : Layout) → CountsRaises L.meaning layout }
    ensures sole { (layout : Layout) → SoleRaises L.meaning layout }
{}

/// The trie law: what stands where a key's path ends names the key's holder; the words of the leaf that a pass loaded last in its stay are as
/// they were, and its connection is claimed; and the node to which the last load of the stay led is no pass's own.
pub fn trie_law<L: Law>()
    ensures ends { (layout : Layout) → EndsNameHolders L.meaning layout }
    ensures leaves { (layout : Layout) → LeavesAreKept L.meaning layout }
    ensures nodes { (layout : Layout) → NodesAreKept L.meaning layout }
{}

/// The death law: while a pass may speak of a connection that was let go, the table's epoch is at most one more than that in its first note.
/// And where a pass owns all reader places, the first note of each Dead connection that isn't its own has an epoch of the table, with which
/// that pass, or one that was joined into it, let the connection go.
pub fn death_law<L: Law>()
    ensures rests { (layout : Layout) → RestsHoldBack L.meaning layout }
    ensures sole { (layout : Layout) → SoleFindsLeft L.meaning layout }
{}

/// The note law: while nobody has a slot's turn, the note of each way of which its connection holds a key names the place where that key's
/// path ends; and the note of a way of which a Live connection holds none is 0.
pub fn note_law<L: Law>()
    ensures names { (layout : Layout) → NotesNameKeys L.meaning layout }
    ensures bare { (layout : Layout) → BareNotesAreZero L.meaning layout }
{}

/// The reader law: reader places that are given one after the other lie in different cache lines.
pub fn reader_law()
    ensures { ReadersStandApart }
{}
