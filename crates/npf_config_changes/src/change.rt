// How the rules of a ruleset change, in a copy of the model.
ghost use Rattle.std.specs.Prelude.{◌≡◌, All, IfOk, filter, map, not, ◌==◌};
ghost use Rattle.npf_config_changes.specs.Kept.{HasNumberLeft, HasNumbersLeft, ruleset_change};
ghost use Rattle.npf_config_changes.specs.Rulesets.{group_with_ruleset, item_with_ruleset, model_with_ruleset};

use crate::ruleset::is_name;
use npf_bpf::Program;
use npf_model::{Group, Item, Model, Rule};
use npf_types::{List, Name, NoMemory, Text};
use std::alloc::Global;

/// What becomes of a ruleset's rules.
#[derive(Clone, Copy)]
pub(crate) enum RulesChange<'a> {
    /// This rule, with its program, is put behind the others.
    Added {
        rule: &'a Rule,
        program: &'a Program,
    },
    /// The rule of this number is taken out.
    Removed(u32),
    /// All are taken out.
    Flushed,
}

/// The model in which each ruleset of this name is changed.
pub(crate) fn changed_model(
    alloc: Global,
    model: &Model,
    name: &Name,
    change: RulesChange<'_>,
) -> Result<Model, NoMemory>
    requires { All (λ group. All (HasNumbersLeft change) group.items) model.now.groups }
    ensures { IfOk result (λ next. next ≡ model_with_ruleset name.now (ruleset_change change.entry) model.now) }
{
    let groups = changed_groups(alloc, model.groups.as_slice(), name, change)?;
    model.with_groups(alloc, groups)
}

fn changed_groups(
    alloc: Global,
    groups: &[Group],
    name: &Name,
    change: RulesChange<'_>,
) -> Result<List<Group>, NoMemory>
    requires { All (λ group. All (HasNumbersLeft change) group.items) groups.now }
    ensures { IfOk result (λ next. next ≡ map (group_with_ruleset name.now (ruleset_change change.entry)) groups.now) }
{
    let mut next = Vec::with_capacity(alloc, groups.len())?;
    for group in groups {
        next.push(Group {
            name: text(alloc, &group.name)?,
            default: group.default,
            dir: group.dir,
            on: group.on,
            items: changed_items(alloc, group.items.as_slice(), name, change)?,
        })?;
    }
    Ok(List::of_vec(next))
}

fn text(alloc: Global, text: &Text) -> Result<Text, NoMemory>
    ensures { IfOk result (λ copy. copy ≡ text.now) }
{
    Ok(List::of_vec(text.as_slice().to_vec(alloc)?))
}

fn changed_items(
    alloc: Global,
    items: &[Item],
    name: &Name,
    change: RulesChange<'_>,
) -> Result<List<Item>, NoMemory>
    requires { All (HasNumbersLeft change) items.now }
    ensures { IfOk result (λ next. next ≡ map (item_with_ruleset name.now (ruleset_change change.entry)) items.now) }
{
    let mut next = Vec::with_capacity(alloc, items.len())?;
    for item in items {
        next.push(changed_item(alloc, item, name, change)?)?;
    }
    Ok(List::of_vec(next))
}

fn changed_item(
    alloc: Global,
    item: &Item,
    name: &Name,
    change: RulesChange<'_>,
) -> Result<Item, NoMemory>
    requires { HasNumbersLeft change item.now }
    ensures { IfOk result (λ next. next ≡ item_with_ruleset name.now (ruleset_change change.entry) item.now) }
{
    match item {
        Item::One(rule) => Ok(Item::One(rule.copy(alloc)?)),
        Item::Dynamic {
            name: own,
            dir,
            on,
            next_id,
            rules,
        } => {
            let same = is_name(own, name);
            let (next_id, rules) = if same {
                changed_rules(alloc, *next_id, rules.as_slice(), change)?
            } else {
                (*next_id, copies(alloc, rules.as_slice())?)
            };
            Ok(Item::Dynamic {
                name: *own,
                dir: *dir,
                on: *on,
                next_id,
                rules: List::of_vec(rules),
            })
        }
    }
}

/// The number of the ruleset's next rule, and its rules.
fn changed_rules(
    alloc: Global,
    next_id: u32,
    rules: &[(u32, Rule)],
    change: RulesChange<'_>,
) -> Result<(u32, Vec<(u32, Rule)>), NoMemory>
    requires { HasNumberLeft change next_id }
    ensures { IfOk result (λ next. record { next_id = next.0; rules = next.1.items } ≡ ruleset_change change.entry (record { next_id = next_id; rules = rules.now })) }
{
    match change {
        RulesChange::Added { rule, .. } => {
            let mut next = copies(alloc, rules)?;
            next.push((next_id, rule.copy(alloc)?))?;
            Ok((next_id + 1, next))
        }
        RulesChange::Removed(id) => Ok((next_id, others(alloc, rules, id)?)),
        RulesChange::Flushed => Ok((next_id, Vec::new(alloc))),
    }
}

fn copies(alloc: Global, rules: &[(u32, Rule)]) -> Result<Vec<(u32, Rule)>, NoMemory>
    ensures { IfOk result (λ copies. copies.items ≡ rules.now) }
{
    let mut copies = Vec::with_capacity(alloc, rules.len())?;
    for rule in rules {
        copies.push((rule.0, rule.1.copy(alloc)?))?;
    }
    Ok(copies)
}

/// The rules that don't have this number.
fn others(alloc: Global, rules: &[(u32, Rule)], id: u32) -> Result<Vec<(u32, Rule)>, NoMemory>
    ensures { IfOk result (λ others. others.items ≡ filter (λ numbered. not (numbered.0 == id)) rules.now) }
{
    let mut others = Vec::new(alloc);
    for rule in rules {
        if rule.0 != id {
            others.push((rule.0, rule.1.copy(alloc)?))?;
        }
    }
    Ok(others)
}
