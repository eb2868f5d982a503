// What holds of the words of every table. The function does nothing: it is a theorem.
ghost use Rattle.npf_cells_words.specs.declared.layout.Layout.{Layout};
ghost use Rattle.npf_cells_words.specs.Codes.{CodesAreApart, CodesFit};
ghost use Rattle.npf_cells_words.specs.MarkWords.{MarksLeadOn, MarksSayNodes};
ghost use Rattle.npf_cells_words.specs.WordsLaw.{FieldsAreApart, PlacesAreApart, LocksAreApart};

/// The words law: two fields have two words, so do two places of the trie, and no lock lies in a place. Two places have two numbers, which
/// are neither 0 nor past 63 bits. A mark says its node, and leads to it.
pub fn words_law()
    ensures fields { (layout : Layout) → FieldsAreApart layout }
    ensures places { (layout : Layout) → PlacesAreApart layout }
    ensures locks { (layout : Layout) → LocksAreApart layout }
    ensures codes { (layout : Layout) → CodesAreApart layout }
    ensures fit { (layout : Layout) → CodesFit layout }
    ensures marks { MarksSayNodes }
    ensures lead { MarksLeadOn }
{}
