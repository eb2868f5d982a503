// What rules and maps name.
ghost use Rattle.std.specs.Prelude.{◌≡◌};
ghost use Rattle.std.specs.List.{list_any};
ghost use Rattle.npf_model.specs.Verdict.{all_rules, rules_at, rules_of};
ghost use Rattle.npf_unused.specs.Unused.{end_uses, filter_uses, is_used, item_uses, listed_use, map_uses, placed_uses, rule_uses};

use npf_model::{AddrItem, Ends, Group, Item, Map, Model, Rule};
use npf_types::List;

/// A table or a procedure of a model, by its place in the model's list, counted from 0.
#[derive(Clone, Copy, Debug, PartialEq, Eq)]
pub enum Usable {
    Table(usize),
    Procedure(usize),
}

/// Whether some rule or some map of the model names it.
pub fn is_used(model: &Model, usable: Usable) -> bool
    ensures { result ≡ is_used model.now usable }
{
    some_rule_uses(model.groups.as_slice(), usable) || some_map_uses(model.maps.as_slice(), usable)
}

fn some_rule_uses(groups: &[Group], usable: Usable) -> bool
    ensures { result ≡ list_any (placed_uses usable) (all_rules groups.now) }
{
    some_group_uses(groups, usable)
}

fn some_group_uses(groups: &[Group], usable: Usable) -> bool
    ensures { result ≡ list_any (λ group. list_any (placed_uses usable) (rules_of group)) groups.now }
{
    groups.iter().any(|group| group_uses(group, usable))
}

fn group_uses(group: &Group, usable: Usable) -> bool
    ensures { result ≡ list_any (placed_uses usable) (rules_of group.now) }
{
    some_item_uses(group.items.as_slice(), usable)
}

fn some_item_uses(items: &[Item], usable: Usable) -> bool
    ensures { result ≡ list_any (λ item. list_any (placed_uses usable) (rules_at item)) items.now }
{
    items.iter().any(|item| item_uses(item, usable))
}

fn item_uses(item: &Item, usable: Usable) -> bool
    ensures { result ≡ list_any (placed_uses usable) (rules_at item.now) }
{
    match item {
        Item::One(rule) => rule_uses(rule, usable),
        Item::Dynamic { rules, .. } => some_numbered_uses(rules.as_slice(), usable),
    }
}

fn some_numbered_uses(rules: &[(u32, Rule)], usable: Usable) -> bool
    ensures { result ≡ list_any (λ numbered. rule_uses usable numbered.1) rules.now }
{
    rules.iter().any(|numbered| rule_uses(&numbered.1, usable))
}

fn some_map_uses(maps: &[Map], usable: Usable) -> bool
    ensures { result ≡ list_any (map_uses usable) maps.now }
{
    maps.iter().any(|map| filter_uses(&map.filter, usable))
}

fn filter_uses(filter: &Option<Rule>, usable: Usable) -> bool
    ensures { result ≡ filter_uses usable filter.now }
{
    match filter {
        Some(rule) => rule_uses(rule, usable),
        None => false,
    }
}

fn rule_uses(rule: &Rule, usable: Usable) -> bool
    ensures { result ≡ rule_uses usable rule.now }
{
    match usable {
        Usable::Table(table) => end_uses(&rule.from, table) || end_uses(&rule.to, table),
        Usable::Procedure(place) => match rule.procedure {
            Some(called) => called as usize == place,
            None => false,
        },
    }
}

fn end_uses(ends: &Ends, table: usize) -> bool
    ensures { result ≡ end_uses table ends.now }
{
    listed_use(&ends.addrs, table)
}

fn listed_use(items: &Option<List<AddrItem>>, table: usize) -> bool
    ensures { result ≡ listed_use table items.now }
{
    match items {
        Some(items) => some_names_table(items.as_slice(), table),
        None => false,
    }
}

fn some_names_table(items: &[AddrItem], table: usize) -> bool
    ensures { result ≡ list_any (item_uses table) items.now }
{
    items.iter().any(|item| names_table(*item, table))
}

fn names_table(item: AddrItem, table: usize) -> bool
    ensures { result ≡ item_uses table item }
{
    match item {
        AddrItem::InTable(number) => number as usize == table,
        AddrItem::Net(_) => false,
    }
}
