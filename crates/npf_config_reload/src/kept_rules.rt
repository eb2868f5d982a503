// The rules of a ruleset that are taken over, and how they then stand.
ghost use Rattle.std.specs.Prelude.{◌≡◌, IfOk, map};
ghost use Rattle.std.specs.List.{list_all};
ghost use Rattle.std.specs.Option.{option_map};
ghost use Rattle.npf_config_reload.specs.Before.{again_of};
ghost use Rattle.npf_config_reload.specs.Taken.{has_item, has_items, has_named, has_procedure, item_again, procedure_again, rule_again, rules_again};

use crate::again::FilePlaces;
use npf_model::{AddrItem, Rule};
use npf_types::{List, NoMemory};
use std::alloc::Global;

/// The rules of which the file has all tables and the procedure, with their numbers, as they stand in the file.
pub(crate) fn rules_again(
    alloc: Global,
    rules: &[(u32, Rule)],
    places: &FilePlaces,
) -> Result<Vec<(u32, Rule)>, NoMemory>
    ensures { IfOk result (λ again. again.items ≡ rules_again (again_of places.now) rules.now) }
{
    let mut again = Vec::new(alloc);
    for numbered in rules {
        if has_named(&numbered.1, places) {
            again.push((numbered.0, rule_again(alloc, &numbered.1, places)?))?;
        }
    }
    Ok(again)
}

fn has_named(rule: &Rule, places: &FilePlaces) -> bool
    ensures { result ≡ has_named (again_of places.now) rule.now }
{
    has_items(&rule.from.addrs, places)
        && has_items(&rule.to.addrs, places)
        && has_procedure(rule.procedure, places)
}

fn has_items(items: &Option<List<AddrItem>>, places: &FilePlaces) -> bool
    ensures { result ≡ has_items (again_of places.now) items.now }
{
    match items {
        Some(items) => has_all(items.as_slice(), places),
        None => true,
    }
}

fn has_all(items: &[AddrItem], places: &FilePlaces) -> bool
    ensures { result ≡ list_all (has_item (again_of places.now)) items.now }
{
    items.iter().all(|item| has_item(*item, places))
}

fn has_item(item: AddrItem, places: &FilePlaces) -> bool
    ensures { result ≡ has_item (again_of places.now) item }
{
    match item {
        AddrItem::Net(_) => true,
        AddrItem::InTable(place) => places.table(place).is_some(),
    }
}

fn has_procedure(procedure: Option<u32>, places: &FilePlaces) -> bool
    ensures { result ≡ has_procedure (again_of places.now) procedure }
{
    match procedure {
        Some(place) => places.procedure(place).is_some(),
        None => true,
    }
}

fn rule_again(alloc: Global, rule: &Rule, places: &FilePlaces) -> Result<Rule, NoMemory>
    ensures { IfOk result (λ again. again ≡ rule_again (again_of places.now) rule.now) }
{
    let mut again = rule.copy(alloc)?;
    again.from.addrs = addrs_again(alloc, &rule.from.addrs, places)?;
    again.to.addrs = addrs_again(alloc, &rule.to.addrs, places)?;
    again.procedure = procedure_again(rule.procedure, places);
    Ok(again)
}

fn procedure_again(procedure: Option<u32>, places: &FilePlaces) -> Option<u32>
    ensures { result ≡ option_map (procedure_again (again_of places.now)) procedure }
{
    match procedure {
        Some(place) => Some(places.procedure(place).unwrap_or(place)),
        None => None,
    }
}

fn addrs_again(
    alloc: Global,
    items: &Option<List<AddrItem>>,
    places: &FilePlaces,
) -> Result<Option<List<AddrItem>>, NoMemory>
    ensures { IfOk result (λ again. again ≡ option_map (map (item_again (again_of places.now))) items.now) }
{
    match items {
        Some(items) => Ok(Some(items_again(alloc, items.as_slice(), places)?)),
        None => Ok(None),
    }
}

fn items_again(
    alloc: Global,
    items: &[AddrItem],
    places: &FilePlaces,
) -> Result<List<AddrItem>, NoMemory>
    ensures { IfOk result (λ again. again ≡ map (item_again (again_of places.now)) items.now) }
{
    let mut again = Vec::with_capacity(alloc, items.len())?;
    for item in items {
        again.push(item_again(*item, places))?;
    }
    Ok(List::of_vec(again))
}

fn item_again(item: AddrItem, places: &FilePlaces) -> AddrItem
    ensures { result ≡ item_again (again_of places.now) item }
{
    match item {
        AddrItem::Net(_) => item,
        AddrItem::InTable(place) => AddrItem::InTable(places.table(place).unwrap_or(place)),
    }
}
