// How many elements the lists of rules have.
ghost use Rattle.std.specs.Prelude.{◌≡◌, ◌≤◌, ◌^◌, IsTrue, length};
ghost use Rattle.std.specs.List.{sum_by};
ghost use Rattle.npf_model.specs.Count.{elements_of, listed};
ghost use Rattle.npf_bpfgen.specs.RuleWeight.{HasShortEnds, HasShortLists};
ghost use Rattle.npf_ruleset.specs.Refusal.{IsBuildable};
ghost use Rattle.npf_config_changes.specs.Elements.{filter_elements_of, group_elements, elements_in_item, model_elements};

use npf_model::{Ends, Group, Item, Map, Model, Rule};
use npf_types::List;

/// No memory holds a list of so many elements, and the weight of shorter ones is a number of 64 bits.
const LONGEST_LIST: usize = 72_057_594_037_927_936;

/// Whether each list of the rule has fewer elements than `LONGEST_LIST`.
pub(crate) fn has_short_lists(rule: &Rule) -> bool
    ensures { IsTrue result → HasShortLists rule.now }
{
    rule.protos.as_slice().len() < LONGEST_LIST
        && has_short_ends(&rule.from)
        && has_short_ends(&rule.to)
}

fn has_short_ends(ends: &Ends) -> bool
    ensures { IsTrue result → HasShortEnds ends.now }
{
    count(&ends.addrs) < LONGEST_LIST && count(&ends.ports) < LONGEST_LIST
}

fn count<T>(list: &Option<List<T>>) -> usize
    ensures { result ≡ listed list.now }
{
    match list {
        Some(items) => items.as_slice().len(),
        None => 0,
    }
}

/// How many elements the lists of a model have.
pub fn model_elements(model: &Model) -> u128
    requires { IsBuildable model.now }
    ensures { result ≡ model_elements model.now }
{
    groups_elements(model.groups.as_slice()) + maps_elements(model.maps.as_slice())
}

fn groups_elements(groups: &[Group]) -> u128
    requires { sum_by group_elements groups.now ≤ 2 ^ 80 }
    ensures value { result ≡ sum_by group_elements groups.now }
    ensures bound { result ≤ 2 ^ 80 }
{
    let mut total = 0;
    for group in groups {
        total += items_elements(group.items.as_slice());
    }
    total
}

fn items_elements(items: &[Item]) -> u128
    requires { sum_by elements_in_item items.now ≤ 2 ^ 80 }
    ensures { result ≡ sum_by elements_in_item items.now }
{
    let mut total = 0;
    for item in items {
        total += elements_in_item(item);
    }
    total
}

fn elements_in_item(item: &Item) -> u128
    requires { elements_in_item item.now ≤ 2 ^ 80 }
    ensures { result ≡ elements_in_item item.now }
{
    match item {
        Item::One(rule) => rule_elements(rule),
        Item::Dynamic { rules, .. } => numbered_elements(rules.as_slice()),
    }
}

fn numbered_elements(rules: &[(u32, Rule)]) -> u128
    requires { sum_by (λ numbered. elements_of numbered.1) rules.now ≤ 2 ^ 80 }
    ensures { result ≡ sum_by (λ numbered. elements_of numbered.1) rules.now }
{
    let mut total = 0;
    for numbered in rules {
        total += rule_elements(&numbered.1);
    }
    total
}

fn maps_elements(maps: &[Map]) -> u128
    requires { length maps.now ≤ 256 }
    ensures value { result ≡ sum_by filter_elements_of maps.now }
    ensures bound { result ≤ 23611832414348226068480 }
{
    let mut total = 0;
    for map in maps {
        total += filter_elements(map);
    }
    total
}

fn filter_elements(map: &Map) -> u128
    ensures value { result ≡ filter_elements_of map.now }
    ensures bound { result ≤ 92233720368547758080 }
{
    match &map.filter {
        Some(filter) => rule_elements(filter),
        None => 0,
    }
}

fn rule_elements(rule: &Rule) -> u128
    ensures value { result ≡ elements_of rule.now }
    ensures bound { result ≤ 92233720368547758080 }
{
    let protos = rule.protos.as_slice().len() as u128;
    let from = count(&rule.from.addrs) as u128 + count(&rule.from.ports) as u128;
    let to = count(&rule.to.addrs) as u128 + count(&rule.to.ports) as u128;
    protos + from + to
}
