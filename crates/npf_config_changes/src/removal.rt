// Rules taken out of a dynamic ruleset.
ghost use Rattle.std.specs.Prelude.{◌≡◌, ℕ, Ok, IfOk, IfErr};
ghost use Rattle.npf_ruleset.specs.Configuration.{configuration};
ghost use Rattle.npf_config.specs.Loaded.{HasNextIds, IsLoaded};
ghost use Rattle.npf_config_changes.specs.Changes.{FlushesRules, RemovesRule, with_ruleset};
ghost use Rattle.npf_config_changes.specs.Kept.{TakesOut, ruleset_change};
ghost use Rattle.npf_config_changes.specs.Told.{EndsUnlessMemory};

use crate::change::RulesChange;
use crate::fault::ChangeFault;
use crate::next::{changed, with_model};
use crate::ruleset::find_ruleset;
use npf_ruleset::Config;
use npf_types::{Name, NoMemory};
use std::alloc::Global;

/// The configuration in which the ruleset of this name hasn't the rule of this number. Refused, in this order: `UnknownRuleset`,
/// `UnknownRule`; or for want of memory.
pub fn rule_rem(alloc: Global, config: &Config, name: Name, id: u32) -> Result<Config, ChangeFault>
    ensures ok { IfOk result (λ next. RemovesRule (configuration config.now) name id (Ok (configuration next))) }
    ensures err { IfErr result (EndsUnlessMemory (RemovesRule (configuration config.now) name id)) }
    ensures loaded { IsLoaded config.now → IfOk result IsLoaded }
    ensures ids { (most : ℕ) → HasNextIds most config.now.model → IfOk result (λ next. HasNextIds most next.model) }
{
    let Some(found) = find_ruleset(config.model().groups.as_slice(), &name) else {
        return Err(ChangeFault::UnknownRuleset);
    };
    if !found.has_rule(id) {
        return Err(ChangeFault::UnknownRule);
    }
    Ok(without(alloc, config, &name, RulesChange::Removed(id))?)
}

/// The configuration in which the ruleset of this name has no rules; its next number stays. Refused with `UnknownRuleset`, or
/// for want of memory.
pub fn rule_flush(alloc: Global, config: &Config, name: Name) -> Result<Config, ChangeFault>
    ensures ok { IfOk result (λ next. FlushesRules (configuration config.now) name (Ok (configuration next))) }
    ensures err { IfErr result (EndsUnlessMemory (FlushesRules (configuration config.now) name)) }
    ensures loaded { IsLoaded config.now → IfOk result IsLoaded }
    ensures ids { (most : ℕ) → HasNextIds most config.now.model → IfOk result (λ next. HasNextIds most next.model) }
{
    let Some(_) = find_ruleset(config.model().groups.as_slice(), &name) else {
        return Err(ChangeFault::UnknownRuleset);
    };
    Ok(without(alloc, config, &name, RulesChange::Flushed)?)
}

/// The configuration in which rules are taken out of each ruleset of this name.
fn without(
    alloc: Global,
    config: &Config,
    name: &Name,
    change: RulesChange<'_>,
) -> Result<Config, NoMemory>
    requires { TakesOut change }
    ensures is { IfOk result (λ next. configuration next ≡ with_ruleset name.now (ruleset_change change.entry) (configuration config.now)) }
    ensures loaded { IsLoaded config.now → IfOk result IsLoaded }
    ensures ids { (most : ℕ) → HasNextIds most config.now.model → IfOk result (λ next. HasNextIds most next.model) }
{
    let (model, programs) = changed(alloc, config, name, change)?;
    with_model(alloc, config, model, programs)
}
