// A rule added to a dynamic ruleset.
ghost use Rattle.std.specs.Prelude.{◌≡◌, ◌≤◌, ◌+◌, ℕ, Ok, IfOk, IfErr, OnOk, length};
ghost use Rattle.std.specs.List.{AllZip};
ghost use Rattle.npf_model.specs.Verdict.{all_rules};
ghost use Rattle.npf_bpfgen.specs.Condition.{HasTableNumbers};
ghost use Rattle.npf_ruleset.specs.Configuration.{configuration};
ghost use Rattle.npf_ruleset.specs.Flat.{instructions};
ghost use Rattle.npf_config.specs.Loaded.{HasNextIds, IsLoaded};
ghost use Rattle.npf_config_changes.specs.Additions.{AddsRule, KeepsCounts, KeepsLimits};
ghost use Rattle.npf_config_changes.specs.Changes.{with_ruleset};
ghost use Rattle.npf_config_changes.specs.Rulesets.{with_rule_added};
ghost use Rattle.npf_config_changes.specs.Kept.{IsServed, Serves};
ghost use Rattle.npf_config_changes.specs.Told.{EndsUnlessMemory, too_many};

use crate::change::RulesChange;
use crate::fault::ChangeFault;
use crate::limit::{has_short_lists, model_elements};
use crate::next::{changed, with_model};
use crate::ruleset::find_ruleset;
use crate::text::{mean_rule, read_rule};
use npf_bpf::Program;
use npf_bpfgen::{GenFault, compile, weight};
use npf_faults::{Excess, Fault};
use npf_model::{Ifaces, Model, Rule};
use npf_ruleset::{Config, instructions};
use npf_types::limits::{
    MAX_INSTRUCTIONS, MAX_LIST_ELEMENTS, MAX_MAPS, MAX_RULE_WEIGHT, MAX_RULES, MAX_TEXT_BYTES,
};
use npf_types::{Name, Span};
use std::alloc::Global;

/// The configuration in which the ruleset of this name has the rule that the text writes behind its others, and the rule's
/// number. The text has at most `MAX_TEXT_BYTES` bytes, and every number that a ruleset gives next is below the greatest. Refused,
/// in this order: `UnknownRuleset`; `Conf` with the first fault of the text's tokens, grammar, meaning or checks (10 to 49); with
/// its weight past `MAX_RULE_WEIGHT`, then with all rules past `MAX_RULES`, all elements past `MAX_LIST_ELEMENTS`, or all
/// instructions past `MAX_INSTRUCTIONS` (49), each told at the rule; or for want of memory.
pub fn rule_add(
    alloc: Global,
    config: &Config,
    name: Name,
    text: &[u8],
    ifaces: &Ifaces,
) -> Result<(Config, u32), ChangeFault>
    requires text { length text.now ≤ MAX_TEXT_BYTES }
    requires ids { HasNextIds 4294967294 config.now.model }
    ensures ok { IfOk result (λ added. AddsRule (configuration config.now) name ifaces.now.list text.now (Ok (configuration added.0, added.1))) }
    ensures err { IfErr result (EndsUnlessMemory (AddsRule (configuration config.now) name ifaces.now.list text.now)) }
    ensures loaded { IsLoaded config.now → IfOk result (λ added. IsLoaded added.0) }
    ensures ids { (most : ℕ) → HasNextIds most config.now.model → IfOk result (λ added. HasNextIds (most + 1) added.0.model) }
{
    let Some(found) = find_ruleset(config.model().groups.as_slice(), &name) else {
        return Err(ChangeFault::UnknownRuleset);
    };
    let tree = read_rule(alloc, text)?;
    let rule = mean_rule(alloc, &tree, config.model(), ifaces)?;
    let next = with_rule(alloc, config, &name, tree.span, &rule)?;
    Ok((next, found.next_id))
}

/// The configuration with the rule, which stands there, if it keeps the limits.
fn with_rule(
    alloc: Global,
    config: &Config,
    name: &Name,
    span: Span,
    rule: &Rule,
) -> Result<Config, ChangeFault>
    requires ids { HasNextIds 4294967294 config.now.model }
    requires tables { HasTableNumbers rule.now }
    ensures is { IfOk result (λ next. configuration next ≡ with_ruleset name.now (with_rule_added rule.now) (configuration config.now)) }
    ensures limits { IfOk result (λ next. KeepsLimits span rule.now next.model (Ok tt)) }
    ensures err { IfErr result (EndsUnlessMemory (KeepsLimits span rule.now (with_ruleset name.now (with_rule_added rule.now) (configuration config.now)).model)) }
    ensures loaded { IsLoaded config.now → IfOk result IsLoaded }
    ensures ids { (most : ℕ) → HasNextIds most config.now.model → IfOk result (λ next. HasNextIds (most + 1) next.model) }
{
    if !has_short_lists(rule) {
        return Err(ChangeFault::NoMemory);
    }
    let weight = weight(rule);
    if weight > MAX_RULE_WEIGHT as u64 {
        let heavy = past(span, Excess::Weight, weight);
        return Err(heavy);
    }
    match compile(alloc, rule) {
        Ok(program) => with_program(alloc, config, name, span, rule, &program),
        Err(GenFault::TooLong(_)) => unreachable!(),
        Err(GenFault::NoMemory) => Err(ChangeFault::NoMemory),
    }
}

/// The same with the rule's program.
fn with_program(
    alloc: Global,
    config: &Config,
    name: &Name,
    span: Span,
    rule: &Rule,
    program: &Program,
) -> Result<Config, ChangeFault>
    requires ids { HasNextIds 4294967294 config.now.model }
    requires served { IsServed (RulesChange.Added rule program) }
    ensures is { IfOk result (λ next. configuration next ≡ with_ruleset name.now (with_rule_added rule.now) (configuration config.now)) }
    ensures limits { IfOk result (λ next. KeepsCounts span next.model (Ok tt)) }
    ensures err { IfErr result (EndsUnlessMemory (KeepsCounts span (with_ruleset name.now (with_rule_added rule.now) (configuration config.now)).model)) }
    ensures loaded { IsLoaded config.now → IfOk result IsLoaded }
    ensures ids { (most : ℕ) → HasNextIds most config.now.model → IfOk result (λ next. HasNextIds (most + 1) next.model) }
{
    let change = RulesChange::Added { rule, program };
    let (model, programs) = changed(alloc, config, name, change)?;
    keep_counts(span, &model, &programs)?;
    Ok(with_model(alloc, config, model, programs)?)
}

/// Whether all rules together keep their limits, told at the rule that is added.
fn keep_counts(span: Span, model: &Model, programs: &[Program]) -> Result<(), ChangeFault>
    requires serve { AllZip Serves (all_rules model.now.groups) programs.now }
    requires maps { length model.now.maps ≤ MAX_MAPS }
    ensures kept { OnOk result (KeepsCounts span model.now (Ok tt)) }
    ensures few { OnOk result (length (all_rules model.now.groups) ≤ MAX_RULES) }
    ensures short { OnOk result (instructions programs.now ≤ MAX_INSTRUCTIONS) }
    ensures passed { IfErr result (EndsUnlessMemory (KeepsCounts span model.now)) }
{
    let count = programs.len();
    if count > MAX_RULES {
        let many_rules = past(span, Excess::Rules, MAX_RULES as u64 + 1);
        return Err(many_rules);
    }
    let elements = model_elements(model);
    if elements > MAX_LIST_ELEMENTS as u128 {
        let many_elements = past(span, Excess::Elements, MAX_LIST_ELEMENTS as u64 + 1);
        return Err(many_elements);
    }
    let total = instructions(programs);
    if total > MAX_INSTRUCTIONS as u64 {
        let many_instructions = past(span, Excess::Instructions, total);
        return Err(many_instructions);
    }
    Ok(())
}

fn past(span: Span, excess: Excess, count: u64) -> ChangeFault
    ensures { result ≡ too_many span excess count }
{
    ChangeFault::at(span, Fault::TooMany(excess, count))
}
