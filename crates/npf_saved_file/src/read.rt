// A saved file held against the run that is to go on with it.
ghost use Rattle.std.specs.Prelude.{◌≡◌, ◌≤◌, IfErr, IfOk, IfSome, MatchOption, length};
ghost use Rattle.npf_saved_file.specs.Refusal.{IsFirstDifference, MayLoad, RefusesSaved};

use crate::fault::SavedFault;
use crate::lines::take_lines;
use npf_saved::Saved;
use npf_types::Name;
use npf_types::limits::MAX_SAVED_BYTES;
use std::alloc::Global;

/// The connections of the text, which has at most `MAX_SAVED_BYTES` bytes, for a run of these
/// interfaces in a table of so many slots. Refused with `BadSaved` at the first bad line; else with
/// `OtherInterfaces` at the first line where another interface stands, or one is missing; else with
/// `TooManySaved`; or for want of memory.
pub fn read_saved(
    alloc: Global,
    text: &[u8],
    names: &[Name],
    slots: u32,
) -> Result<Vec<Saved>, SavedFault>
    requires { length text.now ≤ MAX_SAVED_BYTES }
    ensures ok { IfOk result (λ conns. MayLoad text.now names.now slots conns.items) }
    ensures err { IfErr result (RefusesSaved text.now names.now slots) }
{
    let lines = take_lines(alloc, text)?;
    if let Some(place) = first_difference(&lines.names, names) {
        return Err(SavedFault::OtherInterfaces {
            line: place as u32 + 2,
        });
    }
    let count = lines.conns.len() as u64;
    if count > u64::from(slots) {
        return Err(SavedFault::TooManySaved { count });
    }
    Ok(lines.conns)
}

/// The first place where the lists aren't the same, or one of them ends.
fn first_difference(one: &[Name], other: &[Name]) -> Option<usize>
    ensures differs { MatchOption result (one.now ≡ other.now) (IsFirstDifference one.now other.now) }
    ensures within { IfSome result (λ place. place ≤ length one.now) }
{
    let shared = one.len().min(other.len());
    for place in 0..shared {
        if one[place] != other[place] {
            return Some(place);
        }
    }
    if one.len() == other.len() {
        return None;
    }
    Some(shared)
}
