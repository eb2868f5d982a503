// Where the rules of a text stand, in the order in which they are inspected.
ghost use Rattle.std.specs.Prelude.{◌≡◌, ◌++◌, IfOk, OnOk};
ghost use Rattle.std.specs.List.{flat_map};
ghost use Rattle.npf_check.specs.Limit.{rule_place};
ghost use Rattle.npf_config.specs.RulePlaces.{default_rule_places, inspected_places, named_rule_places};

use npf_syntax::{GroupHead, ItemTree, Stmt};
use npf_types::{NoMemory, Span};
use std::alloc::Global;

pub(crate) fn inspected_places(alloc: Global, stmts: &[Stmt]) -> Result<Vec<Span>, NoMemory>
    ensures { IfOk result (λ places. places.items ≡ inspected_places stmts.now) }
{
    let mut places = Vec::new(alloc);
    'named: for stmt in stmts {
        add_named(&mut places, stmt)?;
    }
    'default: for stmt in stmts {
        add_default(&mut places, stmt)?;
    }
    Ok(places)
}

fn add_named(places: &mut Vec<Span>, stmt: &Stmt) -> Result<(), NoMemory>
    ensures { OnOk result (places.new.items ≡ places.old.items ++ named_rule_places stmt.now) }
{
    match stmt {
        Stmt::Group {
            head: GroupHead::Named { .. },
            items,
            ..
        } => add_items(places, items.as_slice()),
        _ => Ok(()),
    }
}

fn add_default(places: &mut Vec<Span>, stmt: &Stmt) -> Result<(), NoMemory>
    ensures { OnOk result (places.new.items ≡ places.old.items ++ default_rule_places stmt.now) }
{
    match stmt {
        Stmt::Group {
            head: GroupHead::Default { .. },
            items,
            ..
        } => add_items(places, items.as_slice()),
        _ => Ok(()),
    }
}

fn add_items(places: &mut Vec<Span>, items: &[ItemTree]) -> Result<(), NoMemory>
    ensures { OnOk result (places.new.items ≡ places.old.items ++ flat_map rule_place items.now) }
{
    for item in items {
        match item {
            ItemTree::Rule { rule, .. } => places.push(rule.span)?,
            ItemTree::Ruleset { .. } => {}
        }
    }
    Ok(())
}
