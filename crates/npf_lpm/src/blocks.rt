// The table of one family.
ghost use Rattle.std.specs.Prelude.{◌≡◌, ◌≢◌, ◌≤◌, ◌<◌, ◌^◌, ◌↔◌, [], Contains, IsTrue, IfOk, length};
ghost use Rattle.std.specs.Result.{MatchResult};
ghost use Rattle.std.specs.List.{All, AllPairs};
ghost use Rattle.npf_lpm.specs.declared.aligned.Aligned.{Aligned};
ghost use Rattle.npf_lpm.specs.Agree.{HasNumber, IsAligned};
ghost use Rattle.npf_lpm.specs.Blocks.{Inserts, IsAt, Removes};
ghost use Rattle.npf_lpm.specs.Rows.{IsGap, rank};

use crate::aligned::{Aligned, agrees_in};
use crate::index::Index;
use crate::rows::{blocks_of, find, firsts_of, lengths_of, put_in, renew, take_out};
use crate::sort::sort_once;
use npf_types::NoMemory;
use std::alloc::Global;
use std::marker::Model;

/// A set of aligned blocks, in order.
#[derive(Drop)]
pub(crate) struct Blocks {
    firsts: Vec<u128>,
    lengths: Vec<u8>,
    // Beside each block the length of the outermost one that has its first address.
    outermost: Vec<u8>,
    index: Index,
}

impl Model for Blocks {
    ghost use Rattle.std.specs.Prelude.{List};
    ghost use Rattle.npf_lpm.specs.declared.aligned.Aligned.{Aligned};
    ghost use Rattle.npf_lpm.specs.Rows.{aligned_blocks};
    ghost use Rattle.npf_lpm.specs.Index.{AreIndexed};

    ghost Value = { List Aligned };

    ghost view = { λ blocks. aligned_blocks blocks.firsts.items blocks.lengths.items };

    ghost invariant = { λ blocks. AreIndexed blocks.firsts.items blocks.lengths.items blocks.outermost.items blocks.index };
}

impl Blocks {
    /// The empty table. It takes no memory yet.
    pub(crate) fn new(alloc: Global) -> Blocks
        ensures { result ≡ [] }
    {
        Blocks {
            firsts: Vec::new(alloc),
            lengths: Vec::new(alloc),
            outermost: Vec::new(alloc),
            index: Index::new(alloc),
        }
    }

    /// The table of these blocks, which may stand in any order and several times.
    pub(crate) fn of_blocks(alloc: Global, mut blocks: Vec<Aligned>) -> Result<Blocks, NoMemory>
        requires { All IsAligned blocks.items }
        ensures { IfOk result
            (λ table. (block : Aligned) → Contains table block ↔ Contains blocks.items block) }
    {
        sort_once(&mut blocks);
        Blocks::in_order(alloc, &blocks)
    }

    fn in_order(alloc: Global, blocks: &[Aligned]) -> Result<Blocks, NoMemory>
        requires aligned { All IsAligned blocks.now }
        requires rises { AllPairs (λ p q. rank p < rank q) blocks.now }
        ensures { IfOk result (λ table. table ≡ blocks.now) }
    {
        let firsts = firsts_of(alloc, blocks)?;
        let lengths = lengths_of(alloc, blocks)?;
        let mut outermost = lengths_of(alloc, blocks)?;
        renew(&firsts, &lengths, &mut outermost);
        let mut index = Index::new(alloc);
        index.open(&firsts)?;
        Ok(Blocks {
            firsts,
            lengths,
            outermost,
            index,
        })
    }

    /// How many blocks there are. None is there twice.
    pub(crate) fn len(&self) -> usize
        ensures value { result ≡ length self.now }
        ensures small { result < 2 ^ 63 }
        ensures once { AllPairs (λ p q. p ≢ q) self.now }
    {
        self.firsts.len()
    }

    /// The blocks, in order.
    pub(crate) fn to_vec(&self, alloc: Global) -> Result<Vec<Aligned>, NoMemory>
        ensures { IfOk result (λ blocks. blocks.items ≡ self.now) }
    {
        blocks_of(alloc, &self.firsts, &self.lengths)
    }

    /// Whether some block has the address.
    pub(crate) fn contains(&self, addr: u128) -> bool
        ensures { IsTrue result ↔ HasNumber self.now addr }
    {
        let count = self.index.count_to(&self.firsts, addr);
        if count == 0 {
            return false;
        }
        let last = count - 1;
        agrees_in(self.outermost[last], self.firsts[last], addr)
    }

    // The place of a block: Ok where it is there, Err where it would stand.
    fn find(&self, block: Aligned) -> Result<usize, usize>
        requires { IsAligned block }
        ensures { MatchResult result (IsAt self.now block) (IsGap self.now block) }
    {
        let count = self.index.count_to(&self.firsts, block.first);
        find(&self.firsts, &self.lengths, count, block)
    }

    /// Puts a block in. False exactly where it is there already.
    pub(crate) fn insert(&mut self, block: Aligned) -> Result<bool, NoMemory>
        requires { IsAligned block }
        ensures { Inserts self.old self.new block result }
    {
        let Err(place) = self.find(block) else {
            return Ok(false);
        };
        self.index.open(&self.firsts)?;
        put_in(
            &mut self.firsts,
            &mut self.lengths,
            &mut self.outermost,
            place,
            block,
        )?;
        self.index.renew(&self.firsts);
        Ok(true)
    }

    /// Takes a block out. False exactly where it isn't there.
    pub(crate) fn remove(&mut self, block: Aligned) -> bool
        requires { IsAligned block }
        ensures { Removes self.old self.new block result }
    {
        let Ok(place) = self.find(block) else {
            return false;
        };
        take_out(
            &mut self.firsts,
            &mut self.lengths,
            &mut self.outermost,
            place,
        );
        self.index.renew(&self.firsts);
        true
    }

    /// An equal table.
    pub(crate) fn copy(&self) -> Result<Blocks, NoMemory>
        ensures { IfOk result (λ copy. copy ≡ self.now) }
    {
        Ok(Blocks {
            firsts: self.firsts.clone()?,
            lengths: self.lengths.clone()?,
            outermost: self.outermost.clone()?,
            index: self.index.copy()?,
        })
    }
}
