// A configuration loaded in place of the one before, with the tables' files that it names.
ghost use Rattle.std.specs.Prelude.{◌≤◌, ℕ, IfOk, OnOk, length};
ghost use Rattle.npf_outside.specs.Files.{FilesMoment, SameReadFaults};
ghost use Rattle.npf_ruleset.specs.Configuration.{configuration};
ghost use Rattle.npf_config.specs.Loaded.{HasNextIds, IsLoaded};
ghost use Rattle.npf_config.specs.Reading.{OnlyReads};
ghost use Rattle.npf_ctl_input.specs.Around.{Around};
ghost use Rattle.npf_ctl_input.specs.Unless.{UnlessMemory};
ghost use Rattle.npf_ctl_prepare.specs.Reloads.{ReloadsFile, ReloadsText};

use npf_config_reload::reload;
use npf_ctl_input::{read_file, told_fault};
use npf_ctl_messages::CommandFault;
use npf_model::Ifaces;
use npf_outside::Files;
use npf_ruleset::Config;
use npf_types::limits::MAX_TEXT_BYTES;
use std::alloc::Global;

/// The configuration of the file of this name, which takes over the dynamic rules of the last one. Refused as `load_file` is, and
/// then where both together pass a limit of rules, told in this file; or for want of memory.
pub(crate) fn reload_file<F: Files>(
    alloc: Global,
    last: &Config,
    ifaces: &Ifaces,
    file: &str,
    files: &mut F,
) -> Result<Config, CommandFault>
    ensures comes { (before after : FilesMoment) → Around before (F.moment files.old) (F.moment files.new) after
        → UnlessMemory configuration result (ReloadsFile before after ifaces.now.list (configuration last.now) file.now) }
    ensures loaded { IfOk result IsLoaded }
    ensures ids { (most : ℕ) → 1 ≤ most → HasNextIds most last.now.model → IfOk result (λ next. HasNextIds most next.model) }
    ensures reads { OnlyReads (F.moment files.old) (F.moment files.new) }
    ensures faultless { OnOk result (SameReadFaults (F.moment files.old) (F.moment files.new)) }
{
    let text = read_file(alloc, file, MAX_TEXT_BYTES as u64, files)?;
    reload_text(alloc, last, ifaces, file, text.as_slice(), files)
}

/// The configuration of the text of this file.
fn reload_text<F: Files>(
    alloc: Global,
    last: &Config,
    ifaces: &Ifaces,
    file: &str,
    text: &[u8],
    files: &mut F,
) -> Result<Config, CommandFault>
    requires { length text.now ≤ MAX_TEXT_BYTES }
    ensures comes { (before after : FilesMoment) → Around before (F.moment files.old) (F.moment files.new) after
        → UnlessMemory configuration result (ReloadsText before after ifaces.now.list (configuration last.now) file.now text.now) }
    ensures loaded { IfOk result IsLoaded }
    ensures ids { (most : ℕ) → 1 ≤ most → HasNextIds most last.now.model → IfOk result (λ next. HasNextIds most next.model) }
    ensures reads { OnlyReads (F.moment files.old) (F.moment files.new) }
    ensures faultless { OnOk result (SameReadFaults (F.moment files.old) (F.moment files.new)) }
{
    match reload(alloc, last, text, ifaces, files) {
        Ok(config) => Ok(config),
        Err(fault) => Err(told_fault(alloc, file, fault)?),
    }
}
