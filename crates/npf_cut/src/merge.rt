// Ranges of a set that meet, as one.
ghost use Rattle.std.specs.Prelude.{◌≡◌, ℕ, ◌↔◌, ◌+◌, ◌≤◌, ◌⊎◌, IfOk, IsTrue, length};
ghost use Rattle.npf_cut.specs.Range.{IsInRanges};

use crate::range::Range;
use npf_types::NoMemory;
use std::alloc::Global;

/// The same sets by ranges of which no two of a set meet. The given ones are brought in order.
pub(crate) fn merged(alloc: Global, ranges: &mut Vec<Range>) -> Result<Vec<Range>, NoMemory>
    ensures { IfOk result (λ merged. (set v : ℕ) → IsInRanges merged.items set v ↔ IsInRanges ranges.old.items set v) }
{
    ranges.sort_unstable();
    merged_in_order(alloc, ranges.as_slice())
}

/// The same sets by ranges of which no two neighbours of a set meet.
fn merged_in_order(alloc: Global, ranges: &[Range]) -> Result<Vec<Range>, NoMemory>
    ensures { IfOk result (λ merged. (set v : ℕ) → IsInRanges merged.items set v ↔ IsInRanges ranges.now set v) }
{
    let mut merged = Vec::new(alloc);
    let Some(first) = ranges.first() else {
        return Ok(merged);
    };
    let mut last = *first;
    for range in ranges {
        if meets(&last, range) {
            last.high = last.high.max(range.high);
        } else {
            merged.push(last)?;
            last = *range;
        }
    }
    merged.push(last)?;
    Ok(merged)
}

/// Whether the other range is of the same set, and begins within this one or right behind it.
fn meets(range: &Range, other: &Range) -> bool
    ensures { IsTrue result ↔ (range.now.set ≡ other.now.set) × (range.now.low ≤ other.now.low)
        × (other.now.low ≤ range.now.high + 1) }
{
    range.set == other.set && range.low <= other.low && other.low <= range.high.saturating_add(1)
}
