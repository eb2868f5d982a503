// The places of a model's rules, one after another in the order of inspection.
ghost use Rattle.std.specs.Prelude.{◌≡◌, ◌<◌, ◌++◌, IfOk, OnOk, length, slice_get};
ghost use Rattle.std.specs.List.{AllZip};
ghost use Rattle.npf_ruleset.specs.Flat.{IsFlatGroup, has_final, item_has_final, rules_have_final};
ghost use Rattle.npf_ruleset.specs.Layout.{AddsPlaces, ArePlacesOf, places_from, rules_in_group};

use crate::binding::Binding;
use crate::flat::FlatGroup;
use crate::place::{RulePlace, count_of};
use npf_model::{Group, Item, Rule};
use npf_types::NoMemory;
use std::alloc::Global;

/// A model's groups laid out, and where its rules stand.
#[derive(Drop)]
pub(crate) struct GroupLayout {
    pub(crate) groups: Vec<FlatGroup>,
    pub(crate) places: Vec<RulePlace>,
}

impl GroupLayout {
    pub(crate) fn of(alloc: Global, groups: &[Group]) -> Result<GroupLayout, NoMemory>
        ensures groups { IfOk result (λ layout. AllZip IsFlatGroup groups.now layout.groups.items) }
        ensures places { IfOk result (λ layout. ArePlacesOf groups.now layout.places.items) }
    {
        let mut layout = GroupLayout {
            groups: Vec::with_capacity(alloc, groups.len())?,
            places: Vec::new(alloc),
        };
        for (number, group) in groups.iter().enumerate() {
            let before = layout.places.len();
            add_group(&mut layout.places, groups, number)?;
            layout.groups.push(FlatGroup {
                binding: Binding::of_group(group),
                count: layout.places.len() - before,
                finals: has_final(group),
            })?;
        }
        Ok(layout)
    }
}

/// Whether a rule of the group is `final`.
fn has_final(group: &Group) -> bool
    ensures { result ≡ has_final group.now }
{
    group
        .items
        .as_slice()
        .iter()
        .any(|item| item_has_final(item))
}

fn item_has_final(item: &Item) -> bool
    ensures { result ≡ item_has_final item.now }
{
    match item {
        Item::One(rule) => rule.last,
        Item::Dynamic { rules, .. } => rules_have_final(rules.as_slice()),
    }
}

fn rules_have_final(rules: &[(u32, Rule)]) -> bool
    ensures { result ≡ rules_have_final rules.now }
{
    rules.iter().any(|numbered| numbered.1.last)
}

fn add_group(places: &mut Vec<RulePlace>, groups: &[Group], number: usize) -> Result<(), NoMemory>
    requires { number < length groups.now }
    ensures { OnOk result (AddsPlaces groups.now (rules_in_group (slice_get groups.now number)) places.old.items places.new.items) }
{
    for (at, item) in groups[number].items.as_slice().iter().enumerate() {
        let first = RulePlace {
            group: number,
            item: at,
            number: 0,
        };
        add_item(places, first, count_of(item))?;
    }
    Ok(())
}

// The places of as many rules of an item, whose first one has this place.
fn add_item(places: &mut Vec<RulePlace>, first: RulePlace, count: usize) -> Result<(), NoMemory>
    ensures { OnOk result (places.new.items ≡ places.old.items ++ places_from first count) }
{
    for number in 0..count {
        places.push(RulePlace { number, ..first })?;
    }
    Ok(())
}
