// Bytes that a source has left, up to a limit.
ghost use Rattle.std.specs.Prelude.{◌≡◌, ◌++◌, take, IfSome, OnOk};
ghost use Rattle.npf_outside.specs.Counts.{count_after};

use std::fs::OpenFile;
use std::io::{Read, Result as IoResult};

/// Appends what the source has left, of which it takes at most one byte more than `most`. The room for them is made at once.
pub(crate) fn read_front<S: Read + OpenFile + Drop>(
    source: S,
    most: u64,
    bytes: &mut Vec<u8>,
) -> IoResult<()>
    ensures { OnOk result (IfSome (S.remaining source)
        (λ left. bytes.new.items ≡ bytes.old.items ++ take (count_after most 1) left)) }
{
    let most = most.saturating_add(1);
    let size = source.metadata()?.len().min(most);
    bytes.reserve_exact(size.saturating_add(1) as usize)?;
    source.take(most).read_to_end(bytes)?;
    Ok(())
}
