// Ranges as places in the row of intervals.
ghost use Rattle.std.specs.Prelude.{◌≡◌, ◌≤◌, ◌<◌, ℕ, ◌↔◌, IfOk, length, slice_index};
ghost use Rattle.std.specs.List.{All, AllPairs};
ghost use Rattle.npf_cut.specs.Range.{IsInRanges};
ghost use Rattle.npf_cut.specs.Span.{IsIntervalOf, IsSpanOf, IsSpanWithin};

use crate::range::Range;
use npf_types::NoMemory;
use std::alloc::Global;

/// Intervals of a set: those from one place on, below another.
#[derive(Clone, Copy)]
pub(crate) struct SetSpan {
    pub(crate) set: usize,
    pub(crate) from: usize,
    pub(crate) to: usize,
}

/// The ranges as intervals, by the starts of these.
pub(crate) fn spans_of(
    alloc: Global,
    starts: &[u128],
    ranges: &[Range],
) -> Result<Vec<SetSpan>, NoMemory>
    requires rises { AllPairs (λ a b. a < b) starts.now }
    ensures within { IfOk result (λ spans. All (IsSpanWithin (length starts.now)) spans.items) }
    ensures same { IfOk result (λ spans. (set interval : ℕ) → interval < length starts.now
        → IsIntervalOf spans.items set interval ↔ IsInRanges ranges.now set (slice_index starts.now interval)) }
{
    let mut spans = Vec::new(alloc);
    for range in ranges {
        spans.push(span_at(starts, range))?;
    }
    Ok(spans)
}

/// The intervals that start within the range.
fn span_at(starts: &[u128], range: &Range) -> SetSpan
    requires { AllPairs (λ a b. a < b) starts.now }
    ensures { IsSpanOf starts.now range.now result }
{
    let from = starts.partition_point(|start| *start < range.low);
    let to = starts.partition_point(|start| *start <= range.high);
    SetSpan {
        set: range.set,
        from,
        to: to.max(from),
    }
}
