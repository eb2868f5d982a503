// The file's model with what it takes over from the one before.
ghost use Rattle.std.specs.Prelude.{◌≡◌, ◌≤◌, IfOk, length, map};
ghost use Rattle.npf_config_reload.specs.Before.{again_of, found_by};
ghost use Rattle.npf_config_reload.specs.Taken.{group_taken, item_taken, model_taken, taken_ruleset};

use crate::again::FilePlaces;
use crate::kept_rules::rules_again;
use crate::rulesets::Rulesets;
use npf_model::{Group, Item, Model, Rule};
use npf_types::limits::{MAX_PROCEDURES, MAX_TABLES};
use npf_types::{List, Name, NoMemory, Text};
use std::alloc::Global;

/// What is known of the configuration before.
#[derive(Drop)]
struct Before<'a> {
    rulesets: Rulesets<'a>,
    places: FilePlaces,
}

pub(crate) fn model_taken(alloc: Global, old: &Model, file: &Model) -> Result<Model, NoMemory>
    requires tables { length file.now.tables ≤ MAX_TABLES }
    requires procedures { length file.now.procedures ≤ MAX_PROCEDURES }
    ensures { IfOk result (λ model. model ≡ model_taken old.now file.now) }
{
    let before = Before {
        rulesets: Rulesets::of(alloc, old.groups.as_slice())?,
        places: FilePlaces::of(alloc, old, file)?,
    };
    let groups = groups_taken(alloc, file.groups.as_slice(), &before)?;
    file.with_groups(alloc, groups)
}

fn groups_taken(
    alloc: Global,
    groups: &[Group],
    before: &Before<'_>,
) -> Result<List<Group>, NoMemory>
    ensures { IfOk result (λ taken. taken ≡ map (group_taken (again_of before.now.places) (found_by before.now.rulesets)) groups.now) }
{
    let mut taken = Vec::with_capacity(alloc, groups.len())?;
    for group in groups {
        taken.push(Group {
            name: text(alloc, &group.name)?,
            default: group.default,
            dir: group.dir,
            on: group.on,
            items: items_taken(alloc, group.items.as_slice(), before)?,
        })?;
    }
    Ok(List::of_vec(taken))
}

fn text(alloc: Global, text: &Text) -> Result<Text, NoMemory>
    ensures { IfOk result (λ copy. copy ≡ text.now) }
{
    Ok(List::of_vec(text.as_slice().to_vec(alloc)?))
}

fn items_taken(alloc: Global, items: &[Item], before: &Before<'_>) -> Result<List<Item>, NoMemory>
    ensures { IfOk result (λ taken. taken ≡ map (item_taken (again_of before.now.places) (found_by before.now.rulesets)) items.now) }
{
    let mut taken = Vec::with_capacity(alloc, items.len())?;
    for item in items {
        taken.push(item_taken(alloc, item, before)?)?;
    }
    Ok(List::of_vec(taken))
}

fn item_taken(alloc: Global, item: &Item, before: &Before<'_>) -> Result<Item, NoMemory>
    ensures { IfOk result (λ taken. taken ≡ item_taken (again_of before.now.places) (found_by before.now.rulesets) item.now) }
{
    match item {
        Item::One(rule) => Ok(Item::One(rule.copy(alloc)?)),
        Item::Dynamic {
            name,
            dir,
            on,
            next_id,
            rules,
        } => {
            let (next_id, rules) = ruleset_taken(alloc, name, *next_id, rules.as_slice(), before)?;
            Ok(Item::Dynamic {
                name: *name,
                dir: *dir,
                on: *on,
                next_id,
                rules: List::of_vec(rules),
            })
        }
    }
}

/// The number of the ruleset's next rule, and its rules: those that the ruleset of its name had before, or its own.
fn ruleset_taken(
    alloc: Global,
    name: &Name,
    next_id: u32,
    rules: &[(u32, Rule)],
    before: &Before<'_>,
) -> Result<(u32, Vec<(u32, Rule)>), NoMemory>
    ensures { IfOk result (λ taken. record { next_id = taken.0; rules = taken.1.items }
        ≡ taken_ruleset (again_of before.now.places) (found_by before.now.rulesets name.now) (record { next_id = next_id; rules = rules.now })) }
{
    match before.rulesets.named(name) {
        Some(dynamic) => {
            let again = rules_again(alloc, dynamic.rules, &before.places)?;
            Ok((dynamic.next_id, again))
        }
        None => Ok((next_id, copies(alloc, rules)?)),
    }
}

fn copies(alloc: Global, rules: &[(u32, Rule)]) -> Result<Vec<(u32, Rule)>, NoMemory>
    ensures { IfOk result (λ copies. copies.items ≡ rules.now) }
{
    let mut copies = Vec::with_capacity(alloc, rules.len())?;
    for rule in rules {
        copies.push((rule.0, rule.1.copy(alloc)?))?;
    }
    Ok(copies)
}
