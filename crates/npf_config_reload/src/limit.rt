// How many rules and elements there are together.
ghost use Rattle.std.specs.Prelude.{◌≡◌, ◌≤◌, All, Err, IfErr, OnOk, length};
ghost use Rattle.npf_model.specs.Verdict.{all_rules, rules_of};
ghost use Rattle.npf_ruleset.specs.Refusal.{IsCompilable};
ghost use Rattle.npf_faults.specs.declared.fault.Fault.TheVariants.{TooMany as Many};
ghost use Rattle.npf_config.specs.Stage.{IfConf};
ghost use Rattle.npf_config_changes.specs.declared.fault.ChangeFault.TheVariants.{Conf};
ghost use Rattle.npf_config_changes.specs.Additions.{KeepsCounts};
ghost use Rattle.npf_config_changes.specs.Elements.{model_elements};
ghost use Rattle.npf_config_changes.specs.Told.{told_count};

use npf_config::LoadFault;
use npf_config_changes::model_elements;
use npf_faults::{ConfFault, Excess, Fault};
use npf_model::{Group, Model};
use npf_ruleset::count_of;
use npf_types::Span;
use npf_types::limits::{MAX_LIST_ELEMENTS, MAX_MAPS, MAX_RULES};

/// Whether the model has few enough rules, and then elements, told at the text's end.
pub(crate) fn keep_counts(model: &Model, end: Span) -> Result<(), LoadFault>
    requires maps { length model.now.maps ≤ MAX_MAPS }
    requires compilable { All IsCompilable (all_rules model.now.groups) }
    ensures rules { OnOk result (length (all_rules model.now.groups) ≤ MAX_RULES) }
    ensures elements { OnOk result (model_elements model.now ≤ MAX_LIST_ELEMENTS) }
    ensures passed { IfErr result (IfConf (λ fault. KeepsCounts end model.now (Err (Conf fault)))) }
{
    let rules = rule_count(model.groups.as_slice());
    if rules > MAX_RULES {
        let many_rules = past(end, Excess::Rules, MAX_RULES as u64 + 1);
        return Err(many_rules);
    }
    let elements = model_elements(model);
    if elements > MAX_LIST_ELEMENTS as u128 {
        let many_elements = past(end, Excess::Elements, MAX_LIST_ELEMENTS as u64 + 1);
        return Err(many_elements);
    }
    Ok(())
}

/// How many rules there are. A count past 64 bits stands still at their end.
fn rule_count(groups: &[Group]) -> usize
    ensures { result ≡ told_count (length (all_rules groups.now)) }
{
    let mut count: usize = 0;
    for group in groups {
        count = count.saturating_add(count_in(group));
    }
    count
}

fn count_in(group: &Group) -> usize
    ensures { result ≡ told_count (length (rules_of group.now)) }
{
    let mut count: usize = 0;
    for item in group.items.as_slice() {
        count = count.saturating_add(count_of(item));
    }
    count
}

/// A limit is passed, told at the text's end.
pub(crate) fn past(end: Span, excess: Excess, count: u64) -> LoadFault
    ensures { result ≡ LoadFault.Conf (record { span = end; fault = Many excess count }) }
{
    let fault = Fault::TooMany(excess, count);
    LoadFault::Conf(ConfFault { span: end, fault })
}
