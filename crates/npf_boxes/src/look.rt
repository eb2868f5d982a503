// A look at each of the other boxes of a part.
ghost use Rattle.std.specs.Prelude.{◌≡◌, ◌≢◌, ◌≤◌, ◌<◌, ◌+◌, ◌∷◌, ◌++◌, [], ℕ, true, false, List, All, length, IfOk, IfSome, IfNone, IsErrOf, OnOk, Some, None, Ok};
ghost use Rattle.npf_steps.specs.Spent.{IsSpent};
ghost use Rattle.npf_boxes.specs.Cell.{IsPart, any_has, box_at, in_box, words_of};
ghost use Rattle.npf_boxes.specs.Part.{AreLeft, IsToSplitBy, Narrows};

use crate::box_list::Boxes;
use crate::cell::remove;
use crate::fit::{Fit, fit_of};
use npf_steps::{Steps, Stopped};
use npf_types::NoMemory;
use std::alloc::Global;

/// What was left of a part's others.
#[derive(Debug, Drop)]
pub(crate) struct Left {
    pub others: Vec<usize>,
    /// Whether the part lost what one of the others has.
    pub shrunk: bool,
    /// The first of the others left that leave the fewest dimensions open, and these; none where no other is left.
    pub by: Option<usize>,
    pub fewest: usize,
}

impl Left {
    fn new(alloc: Global) -> Left
        ensures others { result.others.items ≡ [] }
        ensures by { IsToSplitBy result }
    {
        Left {
            others: Vec::new(alloc),
            shrunk: false,
            by: None,
            fewest: 0,
        }
    }

    /// Leaves another box, which leaves so many dimensions open.
    fn add(&mut self, other: usize, open: usize) -> Result<(), NoMemory>
        ensures others { OnOk result (self.new.others.items ≡ self.old.others.items ++ other ∷ []) }
        ensures by { OnOk result (IsToSplitBy self.old → IsToSplitBy self.new) }
    {
        if self.by.is_none() || open < self.fewest {
            self.by = Some(other);
            self.fewest = open;
        }
        self.others.push(other)?;
        Ok(())
    }
}

/// Looks at one of the others, and takes from the part what it can. Whether the other hasn't all of the part.
fn look_at(
    boxes: &Boxes,
    words: &mut [u64],
    other: usize,
    left: &mut Left,
) -> Result<bool, NoMemory>
    requires known { other < boxes.now.count }
    requires whole { length words.old ≡ words_of boxes.now.shape }
    ensures covered { result ≡ Ok false → IsPart boxes.now.shape words.old (box_at boxes.now other) }
    ensures narrows { result ≡ Ok true → Narrows boxes.now other words.old words.new left.old.others.items left.new.others.items }
    ensures by { OnOk result (IsToSplitBy left.old → IsToSplitBy left.new) }
{
    let other_words = boxes.get(other);
    match fit_of(&boxes.shape, words, other_words) {
        Fit::Apart => {}
        Fit::Within => return Ok(false),
        Fit::Unit(dimension) => {
            remove(&boxes.shape, dimension, words, other_words);
            left.shrunk = true;
        }
        Fit::Open(open) => left.add(other, open)?,
    }
    Ok(true)
}

/// Looks at the others of a part one after the other, and takes from the part what it can. None where each cell of the part is in one of them.
pub(crate) fn look(
    alloc: Global,
    boxes: &Boxes,
    words: &mut [u64],
    others: &[usize],
    steps: &mut Steps,
) -> Result<Option<Left>, Stopped>
    requires known { All (λ other. other < boxes.now.count) others.now }
    requires whole { length words.old ≡ words_of boxes.now.shape }
    ensures covered { result ≡ Ok None → (cell : List ℕ) → in_box boxes.now.shape words.old cell ≡ true → any_has boxes.now others.now cell ≡ true }
    ensures left { IfOk result (λ found. IfSome found (λ left. AreLeft boxes.now others.now words.old words.new left.others.items)) }
    ensures by { IfOk result (λ left. IfSome left IsToSplitBy) }
    ensures spent { IsErrOf result Stopped.Spent → IsSpent steps.new }
    ensures most { steps.new.most ≡ steps.old.most }
    ensures counted { IfOk result (λ found. IfSome found (λ _. steps.new.taken ≡ steps.old.taken + length others.now)) }
    ensures rises { steps.old.taken ≤ steps.new.taken }
    ensures within { OnOk result (steps.old.taken ≤ steps.old.most → steps.new.taken ≤ steps.new.most) }
{
    let mut left = Left::new(alloc);
    for other in others {
        steps.take(1)?;
        if !look_at(boxes, words, *other, &mut left)? {
            return Ok(None);
        }
    }
    Ok(Some(left))
}
