// Random spaces and boxes, the same in each run.
use crate::every_cell::{Answer, least, met, searched};
use crate::space::Space;
use anyhow::Result;
use std::alloc::Global;

/// Enough steps for any search in a space of these tests.
pub const PLENTY: u64 = 10_000_000;

// Knuth's MMIX generator, its high bits folded over the low ones.
#[derive(Drop)]
pub struct Draws {
    pub state: u64,
}

impl Draws {
    pub fn next(&mut self) -> u64 {
        self.state = self
            .state
            .wrapping_mul(6_364_136_223_846_793_005)
            .wrapping_add(1_442_695_040_888_963_407);
        self.state ^ (self.state >> 29)
    }

    /// A number below the bound, or 0.
    pub fn below(&mut self, bound: u32) -> u32 {
        u32::try_from(self.next() % u64::from(bound.max(1))).unwrap_or(0)
    }

    /// A space of one to three classes in each dimension, with ten random boxes.
    fn space(&mut self, alloc: Global) -> Result<Space> {
        let mut counts = [0; 6];
        for count in counts.iter_mut() {
            *count = 1u32.saturating_add(self.below(3));
        }
        let mut space = Space::of(alloc, counts);
        for _ in 0..10 {
            let sets = self.sets();
            space.add(alloc, sets)?;
        }
        Ok(space)
    }

    /// Six sets, of which most are large.
    fn sets(&mut self) -> [u128; 6] {
        let mut sets = [0; 6];
        for set in sets.iter_mut() {
            *set = u128::from((self.next() | self.next()) & 7);
        }
        sets
    }
}

/// Whether random boxes get right answers: the first outside ever more of the others, and outside all with few steps.
pub fn drawn(alloc: Global, seed: u64) -> Result<Answer> {
    let space = Draws { state: seed }.space(alloc)?;
    let mut others: Vec<u32> = Vec::new(alloc);
    for number in 1..10 {
        others.push(number)?;
        if !are_right(alloc, &space, number, &others)? {
            return Ok(Answer::Wrong);
        }
    }
    for steps in 0..40 {
        if searched(alloc, &space, steps, 0, &others)? == Answer::Wrong {
            return Ok(Answer::Wrong);
        }
    }
    Ok(Answer::Right)
}

fn are_right(alloc: Global, space: &Space, number: u32, others: &[u32]) -> Result<bool> {
    let answer = searched(alloc, space, PLENTY, 0, others)?;
    Ok(
        answer != Answer::Spent
            && answer != Answer::Wrong
            && met(alloc, space, 0, number)? != Answer::Wrong
            && least(space, number)? != Answer::Wrong,
    )
}
