// The names of interfaces in a model.
ghost use Rattle.std.specs.Prelude.{◌≡◌, ◌++◌, IfOk, OnOk};
ghost use Rattle.std.specs.List.{flat_map};
ghost use Rattle.npf_interfaces.specs.Names.{group_names, has_iface_named, item_names, map_names, model_names, on_names, with_name, with_names};

use npf_model::{Group, Iface, Ifaces, Item, Map, Model, OnIf};
use npf_types::{List, Name, NoMemory};
use std::alloc::Global;

/// The names of the interfaces that a model binds its groups, rulesets, rules and maps to, as often as it does.
pub fn model_names(alloc: Global, model: &Model) -> Result<Vec<Name>, NoMemory>
    ensures { IfOk result (λ names. names.items ≡ model_names model.now) }
{
    let mut names = Vec::new(alloc);
    push_groups(&mut names, model.groups.as_slice())?;
    push_maps(&mut names, model.maps.as_slice())?;
    Ok(names)
}

fn push_groups(names: &mut Vec<Name>, groups: &[Group]) -> Result<(), NoMemory>
    ensures { OnOk result (names.new.items ≡ names.old.items ++ flat_map group_names groups.now) }
{
    for group in groups {
        push_on(names, &group.on)?;
        push_items(names, group.items.as_slice())?;
    }
    Ok(())
}

fn push_items(names: &mut Vec<Name>, items: &[Item]) -> Result<(), NoMemory>
    ensures { OnOk result (names.new.items ≡ names.old.items ++ flat_map item_names items.now) }
{
    for item in items {
        push_item(names, item)?;
    }
    Ok(())
}

fn push_item(names: &mut Vec<Name>, item: &Item) -> Result<(), NoMemory>
    ensures { OnOk result (names.new.items ≡ names.old.items ++ item_names item.now) }
{
    match item {
        Item::One(rule) => push_on(names, &rule.on)?,
        Item::Dynamic { on, rules, .. } => {
            push_on(names, on)?;
            for entry in rules.as_slice() {
                push_on(names, &entry.1.on)?;
            }
        }
    }
    Ok(())
}

fn push_maps(names: &mut Vec<Name>, maps: &[Map]) -> Result<(), NoMemory>
    ensures { OnOk result (names.new.items ≡ names.old.items ++ flat_map map_names maps.now) }
{
    for map in maps {
        names.push(map.on.name)?;
    }
    Ok(())
}

fn push_on(names: &mut Vec<Name>, on: &Option<OnIf>) -> Result<(), NoMemory>
    ensures { OnOk result (names.new.items ≡ names.old.items ++ on_names on.now) }
{
    if let Some(on) = on {
        names.push(on.name)?;
    }
    Ok(())
}

/// The interfaces, and behind them each of these names that none of them has, once and without addresses.
pub fn with_names(alloc: Global, ifaces: Ifaces, names: &[Name]) -> Result<Ifaces, NoMemory>
    ensures { IfOk result (λ all. all.list ≡ with_names ifaces.list names.now) }
{
    let mut list = ifaces.list.into_vec();
    for name in names {
        push_name(alloc, &mut list, *name)?;
    }
    Ok(Ifaces {
        list: List::of_vec(list),
    })
}

fn push_name(alloc: Global, ifaces: &mut Vec<Iface>, name: Name) -> Result<(), NoMemory>
    ensures { OnOk result (ifaces.new.items ≡ with_name ifaces.old.items name) }
{
    if !has_iface_named(ifaces.as_slice(), &name) {
        ifaces.push(Iface {
            name,
            addrs: List::of_vec(Vec::new(alloc)),
        })?;
    }
    Ok(())
}

fn has_iface_named(ifaces: &[Iface], name: &Name) -> bool
    ensures { result ≡ has_iface_named ifaces.now name.now }
{
    for iface in ifaces {
        if iface.name.as_bytes() == name.as_bytes() {
            return true;
        }
    }
    false
}
