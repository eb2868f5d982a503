// The cells of a box outside others.
ghost use Rattle.std.specs.Prelude.{◌≡◌, ◌≤◌, ◌<◌, ◌+◌, ◌&&◌, ◌++◌, ℕ, true, false, List, IfOk, IfSome, IsErrOf, Ok, None, length};
ghost use Rattle.std.specs.List.{range_with_len};
ghost use Rattle.npf_steps.specs.Spent.{IsSpent};
ghost use Rattle.npf_boxes.specs.Cell.{box_at, in_box, words_of};
ghost use Rattle.npf_search.specs.Region.{IsRegionOf, decides, has_box, own_decides, region_has};

use crate::decider::Decider;
use npf_boxes::{Boxes, least_cell, meet, outside};
use npf_steps::{Steps, Stopped};
use npf_types::NoMemory;
use std::alloc::Global;

/// The cells of a box that are in none of some others, whose numbers these are.
#[derive(Debug, Drop)]
pub struct Region {
    pub(crate) words: Vec<u64>,
    pub(crate) before: Vec<usize>,
}

impl Region {
    /// All cells of the box of this number.
    pub fn new(alloc: Global, boxes: &Boxes, number: usize) -> Result<Region, NoMemory>
        requires { number < boxes.now.count }
        ensures of { IfOk result (IsRegionOf boxes.now) }
        ensures cells { IfOk result (λ region. (cell : List ℕ) → region_has boxes.now region cell ≡ has_box boxes.now cell number) }
    {
        Ok(Region {
            words: boxes.get(number).to_vec(alloc)?,
            before: Vec::new(alloc),
        })
    }

    /// The cells of the region on which the decider decides; none where its own box has no cell of the region's. It takes a step.
    ///
    /// # Errors
    /// `Stopped::Spent` where no step is left, and want of memory.
    pub fn narrow(
        &self,
        alloc: Global,
        boxes: &Boxes,
        decider: Decider,
        steps: &mut Steps,
    ) -> Result<Option<Region>, Stopped>
        requires of { IsRegionOf boxes.now self.now }
        requires known { decider.first + decider.count ≤ boxes.now.count }
        ensures none { result ≡ Ok None → (cell : List ℕ) → (region_has boxes.now self.now cell && decides (has_box boxes.now cell) decider) ≡ false }
        ensures of { IfOk result (λ found. IfSome found (IsRegionOf boxes.now)) }
        ensures cells { IfOk result (λ found. IfSome found (λ region. (cell : List ℕ)
            → region_has boxes.now region cell ≡ (region_has boxes.now self.now cell && decides (has_box boxes.now cell) decider))) }
        ensures spent { IsErrOf result Stopped.Spent → IsSpent steps.new }
        ensures most { steps.new.most ≡ steps.old.most }
        ensures rises { steps.old.taken ≤ steps.new.taken }
    {
        steps.take(1)?;
        let Some(words) = self.own(alloc, boxes, decider)? else {
            return Ok(None);
        };
        let before = self.with_earlier(alloc, decider)?;
        Ok(Some(Region { words, before }))
    }

    /// The cells of the region's box that the decider's own box has.
    fn own(
        &self,
        alloc: Global,
        boxes: &Boxes,
        decider: Decider,
    ) -> Result<Option<Vec<u64>>, NoMemory>
        requires whole { length self.now.words.items ≡ words_of boxes.now.shape }
        requires known { decider.first + decider.count ≤ boxes.now.count }
        ensures none { result ≡ Ok None → (cell : List ℕ) → (in_box boxes.now.shape self.now.words.items cell && own_decides (has_box boxes.now cell) decider) ≡ false }
        ensures whole { IfOk result (λ found. IfSome found (λ words. length words.items ≡ words_of boxes.now.shape)) }
        ensures cells { IfOk result (λ found. IfSome found (λ words. (cell : List ℕ)
            → in_box boxes.now.shape words.items cell ≡ (in_box boxes.now.shape self.now.words.items cell && own_decides (has_box boxes.now cell) decider))) }
    {
        if decider.place == decider.count {
            return Ok(Some(self.words.to_vec(alloc)?));
        }
        let own = boxes.get(decider.first + decider.place);
        meet(alloc, &boxes.shape, self.words.as_slice(), own)
    }

    /// The boxes outside of which the region's cells are, and behind them the decider's earlier ones.
    fn with_earlier(&self, alloc: Global, decider: Decider) -> Result<Vec<usize>, NoMemory>
        ensures { IfOk result (λ before. before.items ≡ self.now.before.items ++ range_with_len decider.first decider.place) }
    {
        let mut before = self.before.to_vec(alloc)?;
        for at in 0..decider.place {
            before.push(decider.first + at)?;
        }
        Ok(before)
    }

    /// A cell of the region; none exactly where it has none.
    ///
    /// # Errors
    /// `Stopped::Spent` where the steps don't suffice, and want of memory.
    pub fn cell(
        &self,
        alloc: Global,
        boxes: &Boxes,
        steps: &mut Steps,
    ) -> Result<Option<[usize; 6]>, Stopped>
        requires { IsRegionOf boxes.now self.now }
        ensures none { result ≡ Ok None → (cell : List ℕ) → region_has boxes.now self.now cell ≡ false }
        ensures found { IfOk result (λ found. IfSome found (λ cell. region_has boxes.now self.now cell ≡ true)) }
        ensures spent { IsErrOf result Stopped.Spent → IsSpent steps.new }
        ensures most { steps.new.most ≡ steps.old.most }
        ensures rises { steps.old.taken ≤ steps.new.taken }
    {
        let others = self.before.as_slice();
        let Some(part) = outside(alloc, boxes, self.words.as_slice(), others, steps)? else {
            return Ok(None);
        };
        Ok(least_cell(&boxes.shape, part.as_slice()))
    }
}
