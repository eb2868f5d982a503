// The interfaces that are given to a command.
ghost use Rattle.std.specs.Prelude.{◌≤◌, length, option_map, OnOk};
ghost use Rattle.npf_outside.specs.Files.{FilesMoment, SameReadFaults};
ghost use Rattle.npf_config.specs.Reading.{OnlyReads};
ghost use Rattle.npf_ctl_input.specs.Around.{Around};
ghost use Rattle.npf_ctl_input.specs.Interfaces.{NamesInterfaces, ReadsInterfaces};
ghost use Rattle.npf_ctl_input.specs.Unless.{UnlessMemory};

use crate::file::{read_file, text_of};
use npf_ctl_messages::CommandFault;
use npf_expand_interfaces::read_ifaces;
use npf_faults::Refused;
use npf_model::Ifaces;
use npf_outside::Files;
use npf_types::List;
use npf_types::limits::MAX_TEXT_BYTES;
use std::alloc::Global;

/// The interfaces that the file of this name gives, of at most `MAX_TEXT_BYTES` bytes; none where no file is named. Refused where
/// the file can't be read, is longer, or has a bad line, which is told with its place; or for want of memory.
pub fn read_interfaces<F: Files>(
    alloc: Global,
    file: Option<&str>,
    files: &mut F,
) -> Result<Ifaces, CommandFault>
    ensures comes { (before after : FilesMoment) → Around before (F.moment files.old) (F.moment files.new) after
        → UnlessMemory (λ ifaces. ifaces.list) result (ReadsInterfaces before after (option_map (λ name. name.now) file.entry)) }
    ensures reads { OnlyReads (F.moment files.old) (F.moment files.new) }
    ensures faultless { OnOk result (SameReadFaults (F.moment files.old) (F.moment files.new)) }
{
    match file {
        None => Ok(Ifaces {
            list: List::of_vec(Vec::new(alloc)),
        }),
        Some(file) => {
            let text = read_file(alloc, file, MAX_TEXT_BYTES as u64, files)?;
            interfaces_of(alloc, file, text.as_slice())
        }
    }
}

/// The interfaces that the text of this file gives. Refused for its first bad line, or for want of memory.
pub fn interfaces_of(alloc: Global, file: &str, text: &[u8]) -> Result<Ifaces, CommandFault>
    requires { length text.now ≤ MAX_TEXT_BYTES }
    ensures { UnlessMemory (λ ifaces. ifaces.list) result (NamesInterfaces file.now text.now) }
{
    match read_ifaces(alloc, text) {
        Ok(ifaces) => Ok(ifaces),
        Err(Refused::Fault(fault)) => Err(CommandFault::Configuration {
            file: text_of(alloc, file)?,
            fault,
        }),
        Err(Refused::NoMemory) => Err(CommandFault::NoMemory),
    }
}
