// The numbers from which on a set may change.
ghost use Rattle.std.specs.Prelude.{◌≤◌, ℕ, Contains, IfOk, OnOk};
ghost use Rattle.std.specs.List.{All};
ghost use Rattle.npf_cut.specs.Start.{AreStarts, HasStarts};

use crate::range::Range;
use npf_types::NoMemory;
use std::alloc::Global;

/// The starts of the intervals from 0 to the top, each once, in order: between two of them no set changes.
pub(crate) fn starts_of(alloc: Global, top: u128, ranges: &[Range]) -> Result<Vec<u128>, NoMemory>
    ensures { IfOk result (λ starts. AreStarts top ranges.now starts.items) }
{
    let mut starts = all_starts(alloc, top, ranges)?;
    starts.sort_unstable();
    starts.dedup();
    Ok(starts)
}

/// The same in no order, some of them more than once.
fn all_starts(alloc: Global, top: u128, ranges: &[Range]) -> Result<Vec<u128>, NoMemory>
    ensures { IfOk result (λ starts. HasStarts top ranges.now starts.items) }
{
    let mut starts = vec![in alloc; 0u128; 1]?;
    for range in ranges {
        add_start(&mut starts, top, range.low)?;
        add_start(&mut starts, top, range.high.saturating_add(1))?;
    }
    Ok(starts)
}

/// Adds a start where it is at most the top.
fn add_start(starts: &mut Vec<u128>, top: u128, start: u128) -> Result<(), NoMemory>
    ensures kept { OnOk result ((x : ℕ) → Contains starts.old.items x → Contains starts.new.items x) }
    ensures added { OnOk result (start ≤ top → Contains starts.new.items start) }
    ensures below { OnOk result (All (λ start. start ≤ top) starts.old.items → All (λ start. start ≤ top) starts.new.items) }
{
    if start <= top {
        starts.push(start)?;
    }
    Ok(())
}
