// What holds of every trie, of every key and at every change of these kinds. The functions do nothing: each is a theorem.
ghost use Rattle.npf_paths.specs.CellLaw.{WordsSayCells, WordsFit};
ghost use Rattle.npf_paths.specs.DigitLaw.{FitsWords, HalfBytesTellKeys, KeysPart, RootDigitsFit, NodeDigitsFit};
ghost use Rattle.npf_paths.specs.FillingLaw.{FillsKeepPlaces, FillsKeepEnds};
ghost use Rattle.npf_paths.specs.GrowingLaw.{BranchesPart, BranchStays, GrowthIsTold, KeysGoDown, GrownLeavesAreHome};
ghost use Rattle.npf_paths.specs.LevelLaw.{BareHasLevels, FillsKeepLevels, GrowthKeepsLevels};
ghost use Rattle.npf_paths.specs.PathLaw.{HasOnePlaceALevel, HasOneEnd, HasNoneBehindEnd, HasSamePlaces, HasSameEnd};

use npf_types::Key;

/// The word of a cell says that cell; and where its slot or node is a number of 32 bits, the word is one of 64 from which the cell
/// can be made.
pub fn cell_law()
    ensures said { WordsSayCells }
    ensures fits { WordsFit }
{}

/// A path has at most one place a level and at most one end, and no place behind it. It is the same wherever its own places have the same cells.
pub fn path_law()
    ensures level { HasOnePlaceALevel }
    ensures one_end { HasOneEnd }
    ensures behind { HasNoneBehindEnd }
    ensures places { HasSamePlaces }
    ensures same_end { HasSameEnd }
{}

/// A place that is filled, or otherwise changed from what is no node to what is none, leaves each path as it was.
pub fn filling_law()
    ensures places { FillsKeepPlaces }
    ensures ends { FillsKeepEnds }
{}

/// Where nodes are grown in a leaf's place, the paths that ended there go on within them, and the others stay. The two keys for
/// which they are grown go down through all of them, part in the last, and find their own leaves: so each leaf stands on its own
/// key's path. The nodes are such a branch as long as their places have the same cells.
pub fn growing_law()
    ensures parts { BranchesPart }
    ensures same { BranchStays }
    ensures told { GrowthIsTold }
    ensures along { KeysGoDown }
    ensures homes { GrownLeavesAreHome }
{}

/// Each place is met at one level by all paths: so it is where no node hangs, and so it stays where a place is filled, or where a
/// branch of different nodes grows.
pub fn level_law()
    ensures bare { BareHasLevels }
    ensures filled { FillsKeepLevels }
    ensures grown { GrowthKeepsLevels }
{}

/// The digit law: the digits of levels 15 to 94 tell keys apart, so keys that differ part at some level, whatever their hashes.
/// A root's digit is below 64, and each further one below 16.
pub fn digit_law()
    ensures told { HalfBytesTellKeys }
    ensures parted { KeysPart }
    ensures root { RootDigitsFit }
    ensures node { NodeDigitsFit }
{}

/// A program's key is what the digit law asks for: five words of 64 bits.
pub fn words_fit(key: Key)
    ensures { FitsWords key }
{}
