// The programs of a configuration's rules, kept while rules of a ruleset change: only one that is added is new.
ghost use Rattle.std.specs.Prelude.{◌≡◌, ◌++◌, [], IfOk, OnOk, length, map};
ghost use Rattle.std.specs.List.{AllZip};
ghost use Rattle.npf_model.specs.Verdict.{all_rules, rules_at, rules_of};
ghost use Rattle.npf_ruleset.specs.Flat.{programs_of};
ghost use Rattle.npf_config_changes.specs.Kept.{BeginsWithServed, IsServed, Keeps, LeavesBehind, Serves, ruleset_change, other_programs, programs_changed};
ghost use Rattle.npf_config_changes.specs.Rulesets.{group_with_ruleset, item_with_ruleset};

use crate::change::RulesChange;
use crate::ruleset::is_name;
use npf_bpf::Program;
use npf_model::{Group, Item, Rule};
use npf_ruleset::{FlatRule, count_of};
use npf_types::{Name, NoMemory};
use std::alloc::Global;

/// The programs of the rules of the model in which each ruleset of this name is changed. `flats` are those of the rules as they
/// were.
pub(crate) fn changed_programs(
    alloc: Global,
    groups: &[Group],
    flats: &[FlatRule],
    name: &Name,
    change: RulesChange<'_>,
) -> Result<Vec<Program>, NoMemory>
    requires served { IsServed change }
    requires serve { AllZip Serves (all_rules groups.now) (programs_of flats.now) }
    ensures { IfOk result (λ programs. Keeps change.entry (all_rules (map (group_with_ruleset name.now (ruleset_change change.entry)) groups.now)) flats.now [] [] programs.items) }
{
    let mut programs = Vec::new(alloc);
    let mut left = flats;
    for group in groups {
        left = add_group(&mut programs, alloc, group, left, name, change)?;
    }
    Ok(programs)
}

/// Adds the programs of a group's rules, which `flats` begin with. What is left of these is answered.
fn add_group<'a>(
    programs: &mut Vec<Program>,
    alloc: Global,
    group: &Group,
    flats: &'a [FlatRule],
    name: &Name,
    change: RulesChange<'_>,
) -> Result<&'a [FlatRule], NoMemory>
    requires served { IsServed change }
    requires begins { BeginsWithServed (rules_of group.now) flats.now }
    ensures keeps { IfOk result (λ left. Keeps change.entry (rules_of (group_with_ruleset name.now (ruleset_change change.entry) group.now)) flats.now left.now programs.old.items programs.new.items) }
    ensures left { IfOk result (λ left. LeavesBehind (rules_of group.now) flats.now left.now) }
{
    let mut left = flats;
    for item in group.items.as_slice() {
        let (here, behind) = left.split_at(count_of(item));
        add_item(programs, alloc, item, here, name, change)?;
        left = behind;
    }
    Ok(left)
}

/// Adds the programs of an item's rules, which those here are of.
fn add_item(
    programs: &mut Vec<Program>,
    alloc: Global,
    item: &Item,
    here: &[FlatRule],
    name: &Name,
    change: RulesChange<'_>,
) -> Result<(), NoMemory>
    requires served { IsServed change }
    requires serve { AllZip Serves (rules_at item.now) (programs_of here.now) }
    ensures { OnOk result (Keeps change.entry (rules_at (item_with_ruleset name.now (ruleset_change change.entry) item.now)) here.now [] programs.old.items programs.new.items) }
{
    match item {
        Item::One(_) => add(programs, alloc, here),
        Item::Dynamic {
            name: own,
            rules,
            ..
        } => {
            if is_name(own, name) {
                return add_changed(programs, alloc, rules.as_slice(), here, change);
            }
            add(programs, alloc, here)
        }
    }
}

fn add_changed(
    programs: &mut Vec<Program>,
    alloc: Global,
    rules: &[(u32, Rule)],
    here: &[FlatRule],
    change: RulesChange<'_>,
) -> Result<(), NoMemory>
    requires { length rules.now ≡ length here.now }
    ensures { OnOk result (programs.new.items ≡ programs.old.items ++ programs_changed change.entry rules.now here.now) }
{
    match change {
        RulesChange::Added { program, .. } => {
            add(programs, alloc, here)?;
            Ok(programs.push(program.copy(alloc)?)?)
        }
        RulesChange::Removed(id) => add_others(programs, alloc, rules, here, id),
        RulesChange::Flushed => Ok(()),
    }
}

fn add(programs: &mut Vec<Program>, alloc: Global, flats: &[FlatRule]) -> Result<(), NoMemory>
    ensures { OnOk result (programs.new.items ≡ programs.old.items ++ programs_of flats.now) }
{
    for flat in flats {
        programs.push(flat.program().copy(alloc)?)?;
    }
    Ok(())
}

/// Adds all programs but that of the rule with this number.
fn add_others(
    programs: &mut Vec<Program>,
    alloc: Global,
    rules: &[(u32, Rule)],
    flats: &[FlatRule],
    id: u32,
) -> Result<(), NoMemory>
    requires { length rules.now ≡ length flats.now }
    ensures { OnOk result (programs.new.items ≡ programs.old.items ++ other_programs id rules.now flats.now) }
{
    for (at, flat) in flats.iter().enumerate() {
        if rules[at].0 != id {
            programs.push(flat.program().copy(alloc)?)?;
        }
    }
    Ok(())
}
