// A file that is written whole.
ghost use Rattle.std.specs.Prelude.{◌≡◌, IfErr, IfOk, OnOk};
ghost use Rattle.npf_outside.specs.Files.{Has, SameOthers};
ghost use Rattle.npf_ctl_output.specs.File.{HasReadOn, IsUnwritten};

use npf_ctl_messages::CommandFault;
use npf_outside::{FileFault, Files};
use npf_types::{List, NoMemory, Text};
use std::alloc::Global;

/// Writes the bytes to the file of this name, in place of what it has. Refused with `Unwritten`
/// where it can't be written, or for want of memory.
pub fn write_file<F: Files>(
    alloc: Global,
    name: &str,
    bytes: &[u8],
    files: &mut F,
) -> Result<(), CommandFault>
    ensures written { OnOk result (Has (F.moment files.new).contents name.now bytes.now) }
    ensures faultless { OnOk result ((F.moment files.new).write_faults ≡ (F.moment files.old).write_faults) }
    ensures fails { IfErr result (IsUnwritten (F.moment files.old) (F.moment files.new) name.now) }
    ensures others { SameOthers (F.moment files.old).contents (F.moment files.new).contents name.now }
    ensures reads { HasReadOn (F.moment files.old) (F.moment files.new) }
{
    match files.write(name, bytes) {
        Ok(()) => Ok(()),
        Err(FileFault::Failed) => Err(CommandFault::Unwritten {
            file: text_of(alloc, name)?,
        }),
        Err(FileFault::Long | FileFault::NoMemory) => Err(CommandFault::NoMemory),
    }
}

// A copy of a file's name, for a fault.
pub(crate) fn text_of(alloc: Global, name: &str) -> Result<Text, NoMemory>
    ensures { IfOk result (λ text. text ≡ name.now) }
{
    Ok(List::of_vec(Vec::from_slice(alloc, name.as_bytes())?))
}
