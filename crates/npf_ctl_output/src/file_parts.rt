// A file that is written part by part.
ghost use Rattle.std.specs.Prelude.{◌≡◌, IfErr, OnOk};
ghost use Rattle.npf_outside.specs.Files.{Has, SameOthers};
ghost use Rattle.npf_ctl_output.specs.File.{HasReadOn, IsUnwritten};

use crate::file::text_of;
use npf_ctl_messages::CommandFault;
use npf_outside::{FileFault, Files, Parts};
use std::alloc::Global;

/// As `write_file`, of the parts put together in their order.
pub fn write_parts<F: Files, P: Parts>(
    alloc: Global,
    name: &str,
    parts: &mut P,
    files: &mut F,
) -> Result<(), CommandFault>
    ensures written { OnOk result (Has (F.moment files.new).contents name.now (P.rest parts.old)) }
    ensures faultless { OnOk result ((F.moment files.new).write_faults ≡ (F.moment files.old).write_faults) }
    ensures fails { IfErr result (IsUnwritten (F.moment files.old) (F.moment files.new) name.now) }
    ensures others { SameOthers (F.moment files.old).contents (F.moment files.new).contents name.now }
    ensures reads { HasReadOn (F.moment files.old) (F.moment files.new) }
{
    match files.write_parts(alloc, name, parts) {
        Ok(()) => Ok(()),
        Err(FileFault::Failed) => Err(CommandFault::Unwritten {
            file: text_of(alloc, name)?,
        }),
        Err(FileFault::Long | FileFault::NoMemory) => Err(CommandFault::NoMemory),
    }
}
