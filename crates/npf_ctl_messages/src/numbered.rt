// A number with a name, and a quantity with its limit, written behind what a buffer has.
ghost use Rattle.std.specs.Prelude.{◌≡◌, ◌++◌, OnOk};
ghost use Rattle.npf_ctl_messages.specs.Message.{numbered_text, over_text};

use npf_text::{write_counted, write_number, write_text};
use npf_types::NoMemory;

// Appends a fault's number and its name.
pub(crate) fn write_numbered(into: &mut Vec<u8>, number: u8, name: &str) -> Result<(), NoMemory>
    ensures { OnOk result (into.new.items ≡ into.old.items ++ numbered_text number name.now) }
{
    write_number(into, u64::from(number))?;
    write_text(into, " ")?;
    write_text(into, name)
}

// Appends the name of a quantity, how many of it there are, and the most that is taken.
pub(crate) fn write_over(
    into: &mut Vec<u8>,
    name: &str,
    count: u64,
    most: u64,
) -> Result<(), NoMemory>
    ensures { OnOk result (into.new.items ≡ into.old.items ++ over_text name.now count most) }
{
    write_text(into, name)?;
    write_counted(into, " ", count)?;
    write_counted(into, " over ", most)
}
