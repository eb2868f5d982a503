// The search for a cell of a box outside others.
ghost use Rattle.std.specs.Prelude.{◌≡◌, ◌<◌, ◌≤◌, ℕ, true, false, List, All, length, IfOk, IfSome, IsErrOf, Ok, None, MatchOption};
ghost use Rattle.npf_steps.specs.Spent.{IsSpent};
ghost use Rattle.npf_boxes.specs.Cell.{HasCell, any_has, in_box, words_of};
ghost use Rattle.npf_boxes.specs.Part.{IsOutside, IsPartOf, any_part_has};

use crate::box_list::Boxes;
use crate::cell::least_cell;
use crate::look::look;
use crate::part::BoxPart;
use crate::split::split;
use npf_steps::{Steps, Stopped};
use std::alloc::Global;
use std::rc::Rc;

/// A part of the box `from` that has a cell, and none in any of the others, which are numbers of `boxes`; none where each cell of the box
/// is in one of them. A step is taken for each part of the box that is looked at and for each look at another box.
///
/// # Errors
/// `Stopped::Spent` where the steps don't suffice, and want of memory.
pub fn outside(
    alloc: Global,
    boxes: &Boxes,
    from: &[u64],
    others: &[usize],
    steps: &mut Steps,
) -> Result<Option<Vec<u64>>, Stopped>
    requires known { All (λ other. other < boxes.now.count) others.now }
    requires whole { length from.now ≡ words_of boxes.now.shape }
    ensures none { result ≡ Ok None → (cell : List ℕ) → in_box boxes.now.shape from.now cell ≡ true → any_has boxes.now others.now cell ≡ true }
    ensures found { IfOk result (λ found. IfSome found (λ part. IsOutside boxes.now from.now others.now part.items)) }
    ensures whole { IfOk result (λ found. IfSome found (λ part. length part.items ≡ words_of boxes.now.shape)) }
    ensures spent { IsErrOf result Stopped.Spent → IsSpent steps.new }
    ensures most { steps.new.most ≡ steps.old.most }
    ensures rises { steps.old.taken ≤ steps.new.taken }
{
    if least_cell(&boxes.shape, from).is_none() {
        return Ok(None);
    }
    let whole = BoxPart {
        words: from.to_vec(alloc)?,
        others: Rc::new(alloc, others.to_vec(alloc)?)?,
    };
    let mut parts = vec![in alloc; whole]?;
    while let Some(part) = parts.pop() {
        if let Some(found) = examine(alloc, boxes, part, &mut parts, steps)? {
            return Ok(Some(found));
        }
    }
    Ok(None)
}

/// Looks at a part once: it is outside all others, or what the others may not have of it goes onto the parts.
fn examine(
    alloc: Global,
    boxes: &Boxes,
    part: BoxPart,
    parts: &mut Vec<BoxPart>,
    steps: &mut Steps,
) -> Result<Option<Vec<u64>>, Stopped>
    requires known { All (λ other. other < boxes.now.count) part.others.value.items }
    requires whole { length part.words.items ≡ words_of boxes.now.shape }
    ensures parts { result ≡ Ok None → (box numbers : List ℕ) → IsPartOf boxes.now box numbers part
        → All (IsPartOf boxes.now box numbers) parts.old.items → All (IsPartOf boxes.now box numbers) parts.new.items }
    ensures kept { result ≡ Ok None → (cell : List ℕ) → any_part_has boxes.now.shape parts.old.items cell ≡ true
        → any_part_has boxes.now.shape parts.new.items cell ≡ true }
    ensures left { result ≡ Ok None → (cell : List ℕ) → in_box boxes.now.shape part.words.items cell ≡ true
        → any_has boxes.now part.others.value.items cell ≡ false → any_part_has boxes.now.shape parts.new.items cell ≡ true }
    ensures found { IfOk result (λ answer. IfSome answer (λ found. IsOutside boxes.now part.words.items part.others.value.items found.items)) }
    ensures whole { IfOk result (λ answer. IfSome answer (λ found. length found.items ≡ words_of boxes.now.shape)) }
    ensures spent { IsErrOf result Stopped.Spent → IsSpent steps.new }
    ensures most { steps.new.most ≡ steps.old.most }
    ensures step { IfOk result (λ _. steps.old.taken < steps.new.taken) }
    ensures within { IfOk result (λ _. steps.new.taken ≤ steps.new.most) }
    ensures rises { steps.old.taken ≤ steps.new.taken }
{
    steps.take(1)?;
    let BoxPart { mut words, others } = part;
    let Some(left) = look(alloc, boxes, &mut words, others.as_ref(), steps)? else {
        return Ok(None);
    };
    let rest = BoxPart {
        words,
        others: Rc::new(alloc, left.others)?,
    };
    if left.shrunk {
        parts.push(rest)?;
        return Ok(None);
    }
    let Some(by) = left.by else {
        return Ok(answer(boxes, rest));
    };
    split(alloc, boxes, rest, by, parts)?;
    Ok(None)
}

/// The words of a part, which no other may have cells of, if it has a cell.
fn answer(boxes: &Boxes, part: BoxPart) -> Option<Vec<u64>>
    requires { length part.words.items ≡ words_of boxes.now.shape }
    ensures { MatchOption result ((cell : List ℕ) → in_box boxes.now.shape part.words.items cell ≡ false)
        (λ found. (found ≡ part.words) × HasCell boxes.now.shape found.items) }
{
    least_cell(&boxes.shape, &part.words)?;
    Some(part.words)
}
