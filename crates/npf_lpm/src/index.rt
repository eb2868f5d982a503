// Where a large table is searched for an address: its first addresses by 65,536 buckets over their span.
ghost use Rattle.std.specs.Prelude.{◌≡◌, ◌≤◌, ◌<◌, ◌+◌, ◌^◌, [], IfOk, length};
ghost use Rattle.std.specs.List.Sorted.{IsNonDecreasing};
ghost use Rattle.npf_lpm.specs.Cut.{IsCut, IsLowCut, LiesBetween};
ghost use Rattle.npf_lpm.specs.Index.{IsIndex, bucket};

use npf_types::NoMemory;
use std::alloc::Global;

const BUCKETS: usize = 65_536;

// From how many first addresses on a table has an index.
const LARGE: usize = 1_024;

/// How many of the first addresses in a row lie below each bucket.
#[derive(Drop)]
pub(crate) struct Index {
    base: u128,
    // A bucket has 2 ^ shift addresses.
    shift: u8,
    // None in a small table, else one for each bucket and one behind them.
    counts: Vec<u32>,
}

impl Index {
    /// The index of a small table. It takes no memory.
    pub(crate) fn new(alloc: Global) -> Index
        ensures none { result.counts.items ≡ [] }
        ensures shift { result.shift ≡ 0 }
    {
        Index {
            base: 0,
            shift: 0,
            counts: Vec::new(alloc),
        }
    }

    /// Counts the first addresses where they are many and aren't counted yet.
    pub(crate) fn open(&mut self, firsts: &[u128]) -> Result<(), NoMemory>
        requires rises { IsNonDecreasing firsts.now }
        requires index { IsIndex firsts.now self.old.base self.old.shift self.old.counts.items }
        ensures { IsIndex firsts.now self.new.base self.new.shift self.new.counts.items }
    {
        if firsts.len() < LARGE || !self.counts.is_empty() {
            return Ok(());
        }
        self.counts.resize(BUCKETS + 1, 0)?;
        self.renew(firsts);
        Ok(())
    }

    /// Counts the first addresses anew where they are counted. It takes no memory.
    pub(crate) fn renew(&mut self, firsts: &[u128])
        requires { IsNonDecreasing firsts.now }
        ensures { IsIndex firsts.now self.new.base self.new.shift self.new.counts.items }
    {
        let base = firsts.first().copied().unwrap_or(0);
        let last = firsts.last().copied().unwrap_or(0);
        self.base = base;
        self.shift = shift_over(last.saturating_sub(base));
        if firsts.len() > u32::MAX as usize {
            self.counts.clear();
            return;
        }
        let mut below = 0;
        for bucket in 0..self.counts.len() {
            below = count_below(firsts, self.base, self.shift, below, bucket);
            self.counts[bucket] = below as u32;
        }
    }

    /// How many of the first addresses are at or below this one.
    pub(crate) fn count_to(&self, firsts: &[u128], addr: u128) -> usize
        requires rises { IsNonDecreasing firsts.now }
        requires index { IsIndex firsts.now self.now.base self.now.shift self.now.counts.items }
        ensures { IsCut (λ first. first) (addr + 1) firsts.now result }
    {
        let (low, high) = self.bounds(firsts, addr);
        low + firsts[low..high].partition_point(|first| *first <= addr)
    }

    // Two places between which the first addresses pass this one.
    fn bounds(&self, firsts: &[u128], addr: u128) -> (usize, usize)
        requires rises { IsNonDecreasing firsts.now }
        requires index { IsIndex firsts.now self.now.base self.now.shift self.now.counts.items }
        ensures { LiesBetween firsts.now addr result.0 result.1 }
    {
        if self.counts.len() <= BUCKETS {
            return (0, firsts.len());
        }
        let bucket = bucket_of(self.base, self.shift, addr);
        (
            self.counts[bucket] as usize,
            self.counts[bucket + 1] as usize,
        )
    }

    /// An equal index.
    pub(crate) fn copy(&self) -> Result<Index, NoMemory>
        ensures base { IfOk result (λ copy. copy.base ≡ self.now.base) }
        ensures shift { IfOk result (λ copy. copy.shift ≡ self.now.shift) }
        ensures counts { IfOk result (λ copy. copy.counts.items ≡ self.now.counts.items) }
    {
        Ok(Index {
            base: self.base,
            shift: self.shift,
            counts: self.counts.clone()?,
        })
    }
}

// How many bits of an address tell its place in a bucket, where the addresses span so many.
fn shift_over(span: u128) -> u8
    ensures { result < 128 }
{
    (128 - span.leading_zeros()).saturating_sub(16) as u8
}

// The bucket of an address. What lies outside the span is in the first one or the last.
fn bucket_of(base: u128, shift: u8, addr: u128) -> usize
    requires { shift < 128 }
    ensures value { result ≡ bucket base shift addr }
    ensures small { result < 65536 }
{
    (addr.saturating_sub(base) >> shift).min(65_535) as usize
}

// How many of the first addresses lie below a bucket, of which the first `known` are known to.
fn count_below(firsts: &[u128], base: u128, shift: u8, known: usize, limit: usize) -> usize
    requires rises { IsNonDecreasing firsts.now }
    requires narrow { shift < 128 }
    requires known { IsLowCut (bucket base shift) limit firsts.now known }
    ensures { IsCut (bucket base shift) limit firsts.now result }
{
    for place in known..firsts.len() {
        if bucket_of(base, shift, firsts[place]) >= limit {
            return place;
        }
    }
    firsts.len()
}
