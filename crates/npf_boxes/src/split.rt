// A part that is split by another box.
ghost use Rattle.std.specs.Prelude.{◌≡◌, ◌<◌, ℕ, true, false, List, All, length, OnOk};
ghost use Rattle.npf_boxes.specs.Cell.{any_has, box_at, in_box, words_of};
ghost use Rattle.npf_boxes.specs.Part.{IsPartOf, any_part_has};

use crate::box_list::Boxes;
use crate::cell::{keep, remove, section};
use crate::part::BoxPart;
use npf_bits::is_within;
use npf_types::NoMemory;
use std::alloc::Global;
use std::rc::Rc;

/// Puts onto the parts what the other box hasn't of the part: for each dimension that the other leaves open the cells whose class the other
/// has in the dimensions before, but not in this one. So they have no cell in common.
pub(crate) fn split(
    alloc: Global,
    boxes: &Boxes,
    part: BoxPart,
    by: usize,
    parts: &mut Vec<BoxPart>,
) -> Result<(), NoMemory>
    requires known { by < boxes.now.count }
    requires whole { length part.words.items ≡ words_of boxes.now.shape }
    ensures parts { OnOk result ((box numbers : List ℕ) → IsPartOf boxes.now box numbers part
        → All (IsPartOf boxes.now box numbers) parts.old.items → All (IsPartOf boxes.now box numbers) parts.new.items) }
    ensures kept { OnOk result ((cell : List ℕ) → any_part_has boxes.now.shape parts.old.items cell ≡ true
        → any_part_has boxes.now.shape parts.new.items cell ≡ true) }
    ensures split { OnOk result ((cell : List ℕ) → in_box boxes.now.shape part.words.items cell ≡ true
        → in_box boxes.now.shape (box_at boxes.now by) cell ≡ false → any_part_has boxes.now.shape parts.new.items cell ≡ true) }
{
    let BoxPart {
        words: mut rest,
        others,
    } = part;
    let other = boxes.get(by);
    for dimension in 0..6 {
        if !is_within(
            section(&boxes.shape, dimension, &rest),
            section(&boxes.shape, dimension, other),
        ) {
            let mut words = rest.to_vec(alloc)?;
            remove(&boxes.shape, dimension, &mut words, other);
            parts.push(BoxPart {
                words,
                others: others.clone()?,
            })?;
            keep(&boxes.shape, dimension, &mut rest, other);
        }
    }
    Ok(())
}
