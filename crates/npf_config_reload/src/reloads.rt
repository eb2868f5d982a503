// A configuration loaded in place of another.
ghost use Rattle.std.specs.Prelude.{◌≡◌, ◌≤◌, ℕ, All, Err, Ok, IfErr, IfOk, OnOk, length};
ghost use Rattle.npf_model.specs.Verdict.{all_rules};
ghost use Rattle.npf_outside.specs.Files.{SameReadFaults};
ghost use Rattle.npf_ruleset.specs.Configuration.{configuration};
ghost use Rattle.npf_ruleset.specs.Refusal.{IsCompilable, IsLight};
ghost use Rattle.npf_config.specs.Loaded.{HasNextIds, IsLoaded};
ghost use Rattle.npf_config.specs.Reading.{OnlyReads};
ghost use Rattle.npf_config.specs.Stage.{IfConf};
ghost use Rattle.npf_config_changes.specs.declared.fault.ChangeFault.TheVariants.{Conf};
ghost use Rattle.npf_config_changes.specs.Additions.{KeepsCounts};
ghost use Rattle.npf_config_reload.specs.Reloads.{RefusesReload, TakesOver};

use crate::limit::{keep_counts, past};
use crate::model::model_taken;
use npf_config::{LoadFault, load_placed};
use npf_config_changes::shared::shared;
use npf_faults::Excess;
use npf_model::{Ifaces, Model};
use npf_outside::Files;
use npf_ruleset::{BuildFault, Config, build};
use npf_types::Span;
use npf_types::limits::{MAX_MAPS, MAX_TEXT_BYTES};
use std::alloc::Global;

/// Loads a configuration in place of the one before, which stays as it is. Each dynamic ruleset whose name the one before has takes
/// over that one's next number and its numbered rules, in their order. A rule's tables and procedure become those of the same names in
/// the file, and a rule that names one which the file doesn't define is left out. All else is as the file alone says.
///
/// Refused as `load` is, in its order; then at the text's end (49) for all rules together past `MAX_RULES`, for their elements past
/// `MAX_LIST_ELEMENTS`, or for the instructions of their programs past `MAX_INSTRUCTIONS`; or for want of memory.
pub fn reload<F: Files>(
    alloc: Global,
    old: &Config,
    text: &[u8],
    ifaces: &Ifaces,
    files: &mut F,
) -> Result<Config, LoadFault>
    requires { length text.now ≤ MAX_TEXT_BYTES }
    ensures taken { IfOk result (λ next.
        TakesOver ifaces.now.list (F.moment files.old).contents (configuration old.now) text.now (Ok (configuration next))) }
    ensures loaded { IfOk result IsLoaded }
    ensures ids { (most : ℕ) → 1 ≤ most → HasNextIds most old.now.model → IfOk result (λ next. HasNextIds most next.model) }
    ensures refuses { IfErr result (RefusesReload ifaces.now.list text.now (configuration old.now) (F.moment files.old) (F.moment files.new)) }
    ensures reads { OnlyReads (F.moment files.old) (F.moment files.new) }
    ensures faultless { OnOk result (SameReadFaults (F.moment files.old) (F.moment files.new)) }
{
    let (own, end) = load_placed(alloc, text, ifaces, files)?;
    let model = model_taken(alloc, old.model(), own.model())?;
    lay_out(alloc, model, &own, end)
}

/// The configuration with this model, which has the tables of the file's own one. `end` is the place of the text's end.
fn lay_out(alloc: Global, model: Model, own: &Config, end: Span) -> Result<Config, LoadFault>
    requires tables { model.tables ≡ own.now.model.tables }
    requires maps { length model.maps ≤ MAX_MAPS }
    requires compilable { All IsCompilable (all_rules model.groups) }
    requires light { All IsLight (all_rules model.groups) }
    ensures is { IfOk result (λ next. configuration next ≡ record (configuration own.now) { model = model }) }
    ensures kept { OnOk result (KeepsCounts end model (Ok tt)) }
    ensures passed { IfErr result (IfConf (λ fault. KeepsCounts end model (Err (Conf fault)))) }
    ensures loaded { IsLoaded own.now → IfOk result IsLoaded }
{
    keep_counts(&model, end)?;
    let tables = shared(alloc, own.tables())?;
    match build(alloc, model, tables) {
        Ok(config) => Ok(config),
        Err(BuildFault::TooLong { .. }) => unreachable!(),
        Err(BuildFault::TooMuch(count)) => Err(past(end, Excess::Instructions, count)),
        Err(BuildFault::NoMemory) => Err(LoadFault::NoMemory),
    }
}
