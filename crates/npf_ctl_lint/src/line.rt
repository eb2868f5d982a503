// A line about something that has a name.
ghost use Rattle.std.specs.Prelude.{◌≡◌, ◌++◌, OnOk};

use npf_text::{write_bytes, write_text};
use npf_types::NoMemory;

/// Appends what stands in front of a name, the name, and what stands behind it.
pub(crate) fn write_line(
    into: &mut Vec<u8>,
    front: &str,
    name: &[u8],
    behind: &str,
) -> Result<(), NoMemory>
    ensures { OnOk result (into.new.items ≡ into.old.items ++ (front.now ++ (name.now ++ behind.now))) }
{
    write_text(into, front)?;
    write_bytes(into, name)?;
    write_text(into, behind)
}
