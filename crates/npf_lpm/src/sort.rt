// Blocks in the order of the rows.
ghost use Rattle.std.specs.Prelude.{◌<◌, ◌↔◌, Contains};
ghost use Rattle.std.specs.List.{All, AllPairs};
ghost use Rattle.npf_lpm.specs.declared.aligned.Aligned.{Aligned};
ghost use Rattle.npf_lpm.specs.Rows.{rank};

use crate::aligned::Aligned;

/// Sorts the blocks, and leaves each of them once.
pub(crate) fn sort_once(blocks: &mut Vec<Aligned>)
    requires short { All (λ block. block.len < 256) blocks.old.items }
    ensures rises { AllPairs (λ p q. rank p < rank q) blocks.new.items }
    ensures same { (block : Aligned) → Contains blocks.new.items block ↔ Contains blocks.old.items block }
{
    blocks.sort_unstable();
    blocks.dedup();
}
