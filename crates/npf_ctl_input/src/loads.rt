// A configuration, with the tables' files that it names.
ghost use Rattle.std.specs.Prelude.{◌≡◌, ◌≤◌, length, option_map, IfOk, OnOk};
ghost use Rattle.npf_outside.specs.Files.{FilesMoment, SameReadFaults};
ghost use Rattle.npf_ruleset.specs.Configuration.{configuration};
ghost use Rattle.npf_config.specs.Loaded.{HasNextIds, IsLoaded};
ghost use Rattle.npf_config.specs.Reading.{OnlyReads};
ghost use Rattle.npf_ctl_input.specs.Around.{Around};
ghost use Rattle.npf_ctl_input.specs.Loads.{LoadsAlone, LoadsFile, LoadsText, told_load};
ghost use Rattle.npf_ctl_input.specs.Unless.{UnlessMemory};

use crate::file::{read_file, text_of};
use crate::interfaces::read_interfaces;
use npf_config::{LoadFault, load};
use npf_ctl_messages::CommandFault;
use npf_model::Ifaces;
use npf_outside::{FileFault, Files};
use npf_ruleset::Config;
use npf_types::NoMemory;
use npf_types::limits::MAX_TEXT_BYTES;
use std::alloc::Global;

/// The configuration of the file of this name, of at most `MAX_TEXT_BYTES` bytes, for a run with these interfaces. Refused where
/// this file or one that it names for a table can't be read or is longer, or for the first fault, which is told with its place in
/// this file (`npf_config::load`); or for want of memory.
pub fn load_file<F: Files>(
    alloc: Global,
    ifaces: &Ifaces,
    file: &str,
    files: &mut F,
) -> Result<Config, CommandFault>
    ensures comes { (before after : FilesMoment) → Around before (F.moment files.old) (F.moment files.new) after
        → UnlessMemory configuration result (LoadsFile before after ifaces.now.list file.now) }
    ensures loaded { IfOk result IsLoaded }
    ensures ids { IfOk result (λ config. HasNextIds 1 config.model) }
    ensures reads { OnlyReads (F.moment files.old) (F.moment files.new) }
    ensures faultless { OnOk result (SameReadFaults (F.moment files.old) (F.moment files.new)) }
{
    let text = read_file(alloc, file, MAX_TEXT_BYTES as u64, files)?;
    load_text(alloc, ifaces, file, text.as_slice(), files)
}

/// The configuration of the text of this file, for a run with these interfaces. Refused as `load_file` refuses what it read.
pub fn load_text<F: Files>(
    alloc: Global,
    ifaces: &Ifaces,
    file: &str,
    text: &[u8],
    files: &mut F,
) -> Result<Config, CommandFault>
    requires { length text.now ≤ MAX_TEXT_BYTES }
    ensures comes { (before after : FilesMoment) → Around before (F.moment files.old) (F.moment files.new) after
        → UnlessMemory configuration result (LoadsText before after ifaces.now.list file.now text.now) }
    ensures loaded { IfOk result IsLoaded }
    ensures ids { IfOk result (λ config. HasNextIds 1 config.model) }
    ensures reads { OnlyReads (F.moment files.old) (F.moment files.new) }
    ensures faultless { OnOk result (SameReadFaults (F.moment files.old) (F.moment files.new)) }
{
    match load(alloc, text, ifaces, files) {
        Ok(config) => Ok(config),
        Err(fault) => Err(told_fault(alloc, file, fault)?),
    }
}

/// How a fault of the configuration of this file is told: one of its text with this file, one of a table's file with that one.
pub fn told_fault(alloc: Global, conf: &str, fault: LoadFault) -> Result<CommandFault, NoMemory>
    ensures { IfOk result (λ told. told ≡ told_load conf.now fault) }
{
    match fault {
        LoadFault::Conf(fault) => Ok(CommandFault::Configuration {
            file: text_of(alloc, conf)?,
            fault,
        }),
        LoadFault::File {
            file,
            fault: FileFault::Failed,
            ..
        } => Ok(CommandFault::Unread { file }),
        LoadFault::File {
            file,
            fault: FileFault::Long,
            ..
        } => Ok(CommandFault::Long {
            file,
            most: MAX_TEXT_BYTES as u64,
        }),
        LoadFault::File { .. } | LoadFault::NoMemory => Ok(CommandFault::NoMemory),
    }
}

/// The configuration of the file `conf` with the interfaces of the file `ifaces`, or with none where that isn't named.
pub fn load_alone<F: Files>(
    alloc: Global,
    ifaces: Option<&str>,
    conf: &str,
    files: &mut F,
) -> Result<Config, CommandFault>
    ensures comes { (before after : FilesMoment) → Around before (F.moment files.old) (F.moment files.new) after
        → UnlessMemory configuration result (LoadsAlone before after (option_map (λ name. name.now) ifaces.entry) conf.now) }
    ensures loaded { IfOk result IsLoaded }
    ensures ids { IfOk result (λ config. HasNextIds 1 config.model) }
    ensures reads { OnlyReads (F.moment files.old) (F.moment files.new) }
    ensures faultless { OnOk result (SameReadFaults (F.moment files.old) (F.moment files.new)) }
{
    let ifaces = read_interfaces(alloc, ifaces, files)?;
    load_file(alloc, &ifaces, conf, files)
}
