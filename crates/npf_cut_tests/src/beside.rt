// Drawn sets over few numbers, whose classes a plain program finds number by number.
ghost use Rattle.std.specs.Prelude.{◌≤◌};

use anyhow::Result;
use npf_cut::{Dimension, Range, SetBits};
use npf_steps::Steps;
use std::alloc::Global;

// Knuth's MMIX generator, its high bits folded over the low ones.
#[derive(Drop)]
struct Draws {
    state: u64,
}

impl Draws {
    /// A number below the limit, which isn't 0.
    fn below(&mut self, limit: u32) -> u32 {
        self.state = self
            .state
            .wrapping_mul(6_364_136_223_846_793_005)
            .wrapping_add(1_442_695_040_888_963_407);
        ((self.state >> 33) % u64::from(limit.max(1))) as u32
    }

    /// Ranges of these sets, some of them empty, and some beyond the top.
    fn ranges(&mut self, alloc: Global, top: u32, sets: u32) -> Result<Vec<Range>> {
        let mut ranges = Vec::new(alloc);
        let limit = top.saturating_add(4);
        for _ in 0..self.below(4 * sets.min(64)) {
            let set = self.below(sets) as usize;
            let low = u128::from(self.below(limit));
            let high = u128::from(self.below(limit));
            ranges.push(Range { set, low, high })?;
        }
        Ok(ranges)
    }
}

/// Whether the words have the number.
pub fn has(words: &[u64], number: usize) -> bool {
    words
        .get(number / 64)
        .is_some_and(|word| *word >> (number % 64) & 1 == 1)
}

/// Whether drawn sets have the classes that the plain program finds.
pub fn agrees(alloc: Global, seed: u64) -> Result<bool> {
    let mut draws = Draws { state: seed };
    let top = draws.below(40);
    let sets = draws.below(32).saturating_add(1);
    let ranges = draws.ranges(alloc, top, sets)?;
    let mut steps = Steps::new(1_000_000);
    let dimension = Dimension::new(alloc, u128::from(top), ranges.clone()?, &mut steps)?;
    let bits = dimension.bits(alloc, sets as usize, &mut steps)?;
    let mut masks = Vec::new(alloc);
    for number in 0..=top {
        let mask = mask_at(&ranges, u128::from(number));
        if bits_at(&bits, sets as usize, dimension.class_at(u128::from(number))) != mask {
            return Ok(false);
        }
        masks.push(mask)?;
    }
    masks.sort_unstable();
    masks.dedup();
    Ok(masks.len() == dimension.count() && has_members(&dimension))
}

/// The sets that have the number, as bits.
fn mask_at(ranges: &[Range], number: u128) -> u64 {
    let mut mask = 0;
    for range in ranges {
        if range.low <= number && number <= range.high {
            mask |= 1 << (range.set % 64);
        }
    }
    mask
}

/// The sets that have the class, as bits.
fn bits_at(bits: &SetBits, sets: usize, class: usize) -> u64
    requires { sets ≤ bits.now.sets }
{
    let mut mask = 0;
    for set in 0..sets {
        if has(bits.of(set), class) {
            mask |= 1 << (set % 64);
        }
    }
    mask
}

/// Whether the member of each class is of that class.
fn has_members(dimension: &Dimension) -> bool {
    (0..dimension.count()).all(|class| dimension.class_at(dimension.member(class)) == class)
}
