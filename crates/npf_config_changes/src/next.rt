// The next configuration: the rules of a ruleset changed, each with its program, laid out with the
// tables that stay.
ghost use Rattle.std.specs.Prelude.{◌≡◌, [], All, IfOk};
ghost use Rattle.npf_model.specs.Verdict.{all_rules};
ghost use Rattle.npf_ruleset.specs.Configuration.{configuration};
ghost use Rattle.npf_ruleset.specs.Refusal.{IsBuildable, IsWithinLimits};
ghost use Rattle.npf_config.specs.Loaded.{IsLoaded};
ghost use Rattle.npf_config_changes.specs.Kept.{HasNumbersLeft, IsServed, Keeps, ruleset_change};
ghost use Rattle.npf_config_changes.specs.Rulesets.{model_with_ruleset};

use crate::change::{RulesChange, changed_model};
use crate::programs::changed_programs;
use crate::shared::shared;
use npf_bpf::Program;
use npf_model::Model;
use npf_ruleset::{Config, assemble};
use npf_types::{Name, NoMemory};
use std::alloc::Global;

/// The model in which each ruleset of this name is changed, and the programs of its rules.
pub(crate) fn changed(
    alloc: Global,
    config: &Config,
    name: &Name,
    change: RulesChange<'_>,
) -> Result<(Model, Vec<Program>), NoMemory>
    requires served { IsServed change }
    requires room { All (λ group. All (HasNumbersLeft change) group.items) config.now.model.groups }
    ensures model { IfOk result (λ next.
        next.0 ≡ model_with_ruleset name.now (ruleset_change change.entry) config.now.model) }
    ensures keeps { IfOk result (λ next.
        Keeps change.entry (all_rules next.0.groups) config.now.rules [] [] next.1.items) }
{
    let groups = config.model().groups.as_slice();
    let programs = changed_programs(alloc, groups, config.rules(), name, change)?;
    let model = changed_model(alloc, config.model(), name, change)?;
    Ok((model, programs))
}

/// The configuration with this model and the programs of its rules, which shares the tables of the
/// old one.
pub(crate) fn with_model(
    alloc: Global,
    config: &Config,
    model: Model,
    programs: Vec<Program>,
) -> Result<Config, NoMemory>
    requires buildable { IsBuildable model }
    requires limits { IsWithinLimits model programs.items }
    requires tables { model.tables ≡ config.now.model.tables }
    ensures is { IfOk result (λ next.
        configuration next ≡ record (configuration config.now) { model = model }) }
    ensures loaded { IsLoaded config.now → IfOk result IsLoaded }
{
    let tables = shared(alloc, config.tables())?;
    assemble(alloc, model, tables, programs)
}
