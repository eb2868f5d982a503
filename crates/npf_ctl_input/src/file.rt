// A file that is read whole.
ghost use Rattle.std.specs.Prelude.{◌≡◌, ◌≤◌, length, IfOk, OnOk};
ghost use Rattle.npf_outside.specs.Files.{FilesMoment, SameReadFaults};
ghost use Rattle.npf_config.specs.Reading.{OnlyReads};
ghost use Rattle.npf_ctl_input.specs.Around.{Around};
ghost use Rattle.npf_ctl_input.specs.File.{ReadsFile};
ghost use Rattle.npf_ctl_input.specs.Unless.{UnlessMemory};

use npf_ctl_messages::CommandFault;
use npf_outside::{FileFault, Files};
use npf_types::{List, NoMemory, Text};
use std::alloc::Global;

/// The bytes of the file of this name, of which at most `most` are taken. Refused where it can't be read (`Unread`) or has more
/// bytes (`Long`), or for want of memory.
pub fn read_file<F: Files>(
    alloc: Global,
    name: &str,
    most: u64,
    files: &mut F,
) -> Result<Vec<u8>, CommandFault>
    ensures comes { (before after : FilesMoment) → Around before (F.moment files.old) (F.moment files.new) after
        → UnlessMemory (λ bytes. bytes.items) result (ReadsFile before after name.now most) }
    ensures fits { IfOk result (λ bytes. length bytes.items ≤ most) }
    ensures reads { OnlyReads (F.moment files.old) (F.moment files.new) }
    ensures faultless { OnOk result (SameReadFaults (F.moment files.old) (F.moment files.new)) }
{
    match files.read(alloc, name, most) {
        Ok(bytes) => Ok(bytes),
        Err(FileFault::Failed) => Err(CommandFault::Unread {
            file: text_of(alloc, name)?,
        }),
        Err(FileFault::Long) => Err(CommandFault::Long {
            file: text_of(alloc, name)?,
            most,
        }),
        Err(FileFault::NoMemory) => Err(CommandFault::NoMemory),
    }
}

/// A copy of a file's name, for a fault.
pub fn text_of(alloc: Global, name: &str) -> Result<Text, NoMemory>
    ensures { IfOk result (λ text. text ≡ name.now) }
{
    Ok(List::of_vec(Vec::from_slice(alloc, name.as_bytes())?))
}
