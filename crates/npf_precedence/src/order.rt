// The order of precedence, group by group.
ghost use Rattle.std.specs.Prelude.{◌≡◌, ◌+◌, ◌<◌, ◌^◌, ◌++◌, IfOk, OnOk, length, map, reverse};
ghost use Rattle.std.specs.List.{filter};
ghost use Rattle.npf_model.specs.Verdict.{rules_at, rules_of};
ghost use Rattle.npf_precedence.specs.Entry.{entry_is_final, entry_is_not_final, ordered_rule};
ghost use Rattle.npf_precedence.specs.Precedence.{in_order, rules_from};

use crate::entry::RuleEntry;
use npf_model::{Group, Item};
use npf_types::NoMemory;
use std::alloc::Global;

/// The rules of these groups in the order of precedence: the first that matches a packet decides. The groups are a model's, in the order
/// of inspection.
pub fn in_order<'a>(alloc: Global, groups: &'a [Group]) -> Result<Vec<RuleEntry<'a>>, NoMemory>
    ensures { IfOk result (λ entries. map ordered_rule entries.items ≡ in_order groups.now) }
{
    let mut order = Vec::new(alloc);
    for group in groups {
        let rules = rules_of(alloc, group, order.len())?;
        add_finals(&mut order, rules.as_slice())?;
        add_others(&mut order, rules.as_slice())?;
    }
    Ok(order)
}

/// The rules of a group in the order of inspection, of which the first has this place, counted from 0 in all groups.
pub fn rules_of<'a>(
    alloc: Global,
    group: &'a Group,
    first: usize,
) -> Result<Vec<RuleEntry<'a>>, NoMemory>
    requires { first < 2 ^ 63 }
    ensures { IfOk result (λ entries. map ordered_rule entries.items ≡ rules_from group.now first (rules_of group.now)) }
{
    let mut rules = Vec::new(alloc);
    for item in group.items.as_slice() {
        add_item(&mut rules, group, item, first)?;
    }
    Ok(rules)
}

// The rules that stand at an item's place, behind those of the group that stand in front of it.
fn add_item<'a>(
    rules: &mut Vec<RuleEntry<'a>>,
    group: &'a Group,
    item: &'a Item,
    first: usize,
) -> Result<(), NoMemory>
    requires { first < 2 ^ 63 }
    ensures { OnOk result (map ordered_rule rules.new.items ≡ map ordered_rule rules.old.items ++ rules_from group.now (first + length rules.old.items) (rules_at item.now)) }
{
    match item {
        Item::One(rule) => rules.push(RuleEntry {
            place: first + rules.len(),
            group_dir: group.dir,
            group_on: group.on,
            within_dir: None,
            within_on: None,
            rule,
        })?,
        Item::Dynamic {
            dir,
            on,
            rules: numbered,
            ..
        } => {
            for entry in numbered.as_slice() {
                rules.push(RuleEntry {
                    place: first + rules.len(),
                    group_dir: group.dir,
                    group_on: group.on,
                    within_dir: *dir,
                    within_on: *on,
                    rule: &entry.1,
                })?;
            }
        }
    }
    Ok(())
}

// A group's rules with `final`, in the order of inspection.
fn add_finals<'a>(order: &mut Vec<RuleEntry<'a>>, rules: &[RuleEntry<'a>]) -> Result<(), NoMemory>
    ensures { OnOk result (order.new.items ≡ order.old.items ++ filter entry_is_final rules.now) }
{
    for entry in rules {
        if entry.rule.last {
            order.push(*entry)?;
        }
    }
    Ok(())
}

// A group's other rules, the last one first.
fn add_others<'a>(order: &mut Vec<RuleEntry<'a>>, rules: &[RuleEntry<'a>]) -> Result<(), NoMemory>
    ensures { OnOk result (order.new.items ≡ order.old.items ++ filter entry_is_not_final (reverse rules.now)) }
{
    for entry in rules.iter().rev() {
        if !entry.rule.last {
            order.push(*entry)?;
        }
    }
    Ok(())
}
