// All that is told of a packet.
ghost use Rattle.std.specs.Prelude.{◌≡◌, ◌≤◌, ◌++◌, OnOk, Some, length, map, option_copied};
ghost use Rattle.npf_types.specs.declared.limits.TheConstants.{MAX_RULES};
ghost use Rattle.npf_model.specs.Verdict.{all_rules};
ghost use Rattle.npf_precedence.specs.Entry.{ordered_rule};
ghost use Rattle.npf_ctl_explain.specs.Beside.{beside, each_beside};
ghost use Rattle.npf_ctl_explain.specs.Text.{group_text, nth_group_text, explained_text};

use crate::lines::{write_group_line, write_maps, write_rules};
use crate::outcome::write_verdict;
use npf_explain::{Explanation, ToldGroup};
use npf_model::{Group, Model};
use npf_precedence::{RuleEntry, rules_of};
use npf_ruleset::Config;
use npf_text::write_text;
use npf_types::NoMemory;
use std::alloc::Global;

/// Appends what is told of a packet, a line for each group, rule and map, and what becomes of it.
pub fn write_told(
    alloc: Global,
    into: &mut Vec<u8>,
    config: &Config,
    told: &Explanation,
) -> Result<(), NoMemory>
    ensures { OnOk result (into.new.items ≡ into.old.items ++ explained_text config.now.model told.now) }
{
    let model = config.model();
    write_groups(alloc, into, model, told.groups.as_slice())?;
    write_maps(alloc, into, model, told.maps.as_slice())?;
    write_verdict(into, config, told.decider, told.map)?;
    write_text(into, "\n")
}

fn write_groups(
    alloc: Global,
    into: &mut Vec<u8>,
    model: &Model,
    told: &[ToldGroup],
) -> Result<(), NoMemory>
    requires { length (all_rules model.now.groups) ≤ MAX_RULES }
    ensures { OnOk result (into.new.items ≡ into.old.items ++ each_beside (nth_group_text model.now) model.now.groups told.now) }
{
    let mut first = 0;
    for (at, group) in model.groups.as_slice().iter().enumerate() {
        let rules = rules_of(alloc, group, first)?;
        write_told_group(alloc, into, model, group, rules.as_slice(), told.get(at))?;
        first += rules.len();
    }
    Ok(())
}

fn write_told_group(
    alloc: Global,
    into: &mut Vec<u8>,
    model: &Model,
    group: &Group,
    rules: &[RuleEntry<'_>],
    told: Option<&ToldGroup>,
) -> Result<(), NoMemory>
    ensures { OnOk result (into.new.items ≡ into.old.items
        ++ beside (group_text model.now (map ordered_rule rules.now)) (Some group.now) (option_copied told.entry)) }
{
    let Some(told) = told else {
        return Ok(());
    };
    write_group_line(into, group, told.told)?;
    write_rules(alloc, into, model, rules, told.rules.as_slice())
}
