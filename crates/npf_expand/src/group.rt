// The groups of a configuration, and their rules.
ghost use Rattle.std.specs.Prelude.{◌≡◌, ◌≤◌, ◌++◌, ◌∷◌, [], IfOk, None, OnOk, map};
ghost use Rattle.std.specs.Option.{option_map};
ghost use Rattle.npf_faults.specs.First.{first_fault};
ghost use Rattle.npf_expand_values.specs.Declarations.{table_number};
ghost use Rattle.npf_expand_values.specs.Iface.{on_iface};
ghost use Rattle.npf_expand.specs.Group.{group_of_tree, head_faults, item_elements, item_faults, item_of_tree, items_elements, items_faults};
ghost use Rattle.npf_expand.specs.Meets.{Meets};
ghost use Rattle.npf_expand.specs.Rule.{dir_of, filter_count, on_faults, rule_faults, rule_of_tree};
ghost use Rattle.npf_types.specs.declared.limits.TheConstants.{MAX_LIST_ELEMENTS};
ghost use Rattle.npf_types.specs.Named.{named};
ghost use Rattle.npf_expand_values.specs.Scope.{declared_of_scope, env_of_scope, ifaces_of_scope};

use crate::filter::{filter_count, filter_fault, filter_rule};
use crate::met::NodeTally;
use crate::rule::{decision_of, dir_of, state_of};
use crate::text::text_of;
use npf_expand_values::{Scope, name_of};
use npf_faults::{ConfFault, earlier};
use npf_model::{Group, Item, OnIf, Rule};
use npf_syntax::{Boxed, Direction, GroupHead, IfaceTree, ItemTree as WrittenItem, RuleTree, Str};
use npf_types::{List, NoMemory};
use std::alloc::Global;

/// Reads a group: what it is in a model, unless a fault was met.
pub(crate) fn read_group<'a>(
    scope: &Scope<'_, 'a, '_>,
    alloc: Global,
    met: &mut NodeTally,
    head: &'a GroupHead,
    items: &'a [WrittenItem],
) -> Result<Group, NoMemory>
    ensures met { OnOk result (Meets met.old met.new
        (head_faults (ifaces_of_scope scope.now) (env_of_scope scope.now) (declared_of_scope scope.now) head.now
        ++ items_faults (ifaces_of_scope scope.now) (env_of_scope scope.now) (declared_of_scope scope.now) met.old.elements items.now)
        (items_elements (ifaces_of_scope scope.now) (env_of_scope scope.now) (declared_of_scope scope.now) items.now)) }
    ensures built { IfOk result (λ group. met.new.first ≡ None
        → group ≡ group_of_tree (ifaces_of_scope scope.now) (env_of_scope scope.now) (declared_of_scope scope.now) head.now items.now) }
{
    met.meet(head_fault(scope, head));
    let items = read_items(scope, alloc, met, items)?;
    let group = group_of(scope, alloc, head, items)?;
    Ok(group)
}

fn group_of<'a>(
    scope: &Scope<'_, 'a, '_>,
    alloc: Global,
    head: &'a GroupHead,
    items: List<Item>,
) -> Result<Group, NoMemory>
    ensures { IfOk result (λ group. group ≡ record
        (group_of_tree (ifaces_of_scope scope.now) (env_of_scope scope.now) (declared_of_scope scope.now) head.now []) { items = items }) }
{
    match head {
        GroupHead::Named { name, dir, on, .. } => Ok(Group {
            name: text_of(alloc, name.text.as_slice())?,
            default: false,
            dir: dir_of(dir),
            on: on_of(scope, on),
            items,
        }),
        GroupHead::Default { .. } => Ok(Group {
            name: List::of_vec(Vec::new(alloc)),
            default: true,
            dir: None,
            on: None,
            items,
        }),
    }
}

fn head_fault<'a>(scope: &Scope<'_, 'a, '_>, head: &'a GroupHead) -> Option<ConfFault>
    ensures { result ≡ first_fault (head_faults (ifaces_of_scope scope.now) (env_of_scope scope.now) (declared_of_scope scope.now) head.now) }
{
    match head {
        GroupHead::Named { on, .. } => on_fault(scope, on),
        GroupHead::Default { .. } => None,
    }
}

fn read_items<'a>(
    scope: &Scope<'_, 'a, '_>,
    alloc: Global,
    met: &mut NodeTally,
    items: &'a [WrittenItem],
) -> Result<List<Item>, NoMemory>
    ensures met { OnOk result (Meets met.old met.new
        (items_faults (ifaces_of_scope scope.now) (env_of_scope scope.now) (declared_of_scope scope.now) met.old.elements items.now)
        (items_elements (ifaces_of_scope scope.now) (env_of_scope scope.now) (declared_of_scope scope.now) items.now)) }
    ensures built { IfOk result (λ built. met.new.first ≡ None
        → built ≡ map (item_of_tree (ifaces_of_scope scope.now) (env_of_scope scope.now) (declared_of_scope scope.now)) items.now) }
{
    let mut built = Vec::new(alloc);
    for item in items {
        read_item(scope, alloc, met, &mut built, item)?;
    }
    Ok(List::of_vec(built))
}

// Reads an item, and puts what it is in a model behind the others unless a fault was met.
fn read_item<'a>(
    scope: &Scope<'_, 'a, '_>,
    alloc: Global,
    met: &mut NodeTally,
    built: &mut Vec<Item>,
    item: &'a WrittenItem,
) -> Result<(), NoMemory>
    ensures met { OnOk result (Meets met.old met.new
        (item_faults (ifaces_of_scope scope.now) (env_of_scope scope.now) (declared_of_scope scope.now) met.old.elements item.now)
        (item_elements (ifaces_of_scope scope.now) (env_of_scope scope.now) (declared_of_scope scope.now) item.now)) }
    ensures built { OnOk result (met.new.first ≡ None
        → built.new.items ≡ built.old.items ++ item_of_tree (ifaces_of_scope scope.now) (env_of_scope scope.now) (declared_of_scope scope.now) item.now ∷ []) }
{
    match item {
        WrittenItem::Rule { rule, .. } => {
            let more = filter_count(scope, alloc, &rule.filter)?;
            met.meet_rule(rule_fault(scope, rule), more, rule.span);
            if met.first.is_some() {
                return Ok(());
            }
            add_rule(scope, alloc, built, rule)?;
            Ok(())
        }
        WrittenItem::Ruleset { name, dir, on, .. } => {
            met.meet(on_fault(scope, on));
            built.push(ruleset_of(scope, alloc, name, dir, on))?;
            Ok(())
        }
    }
}

// Puts a rule, whose elements keep the limit, behind the others.
fn add_rule<'a>(
    scope: &Scope<'_, 'a, '_>,
    alloc: Global,
    built: &mut Vec<Item>,
    rule: &'a RuleTree,
) -> Result<(), NoMemory>
    requires { filter_count (ifaces_of_scope scope.now) (env_of_scope scope.now) rule.now.filter ≤ MAX_LIST_ELEMENTS }
    ensures { OnOk result (built.new.items ≡ built.old.items
        ++ Item.One (rule_of_tree (ifaces_of_scope scope.now) (env_of_scope scope.now) (declared_of_scope scope.now) rule.now) ∷ []) }
{
    built.push(Item::One(rule_of(scope, alloc, rule)?))?;
    Ok(())
}

fn ruleset_of<'a>(
    scope: &Scope<'_, 'a, '_>,
    alloc: Global,
    name: &Str,
    dir: &Option<Direction>,
    on: &'a Option<Boxed<IfaceTree>>,
) -> Item
    ensures { result ≡ Item.Dynamic (named name.now.text) (option_map dir_of dir.now)
        (option_map (on_iface (ifaces_of_scope scope.now) (env_of_scope scope.now)) on.now) 1 [] }
{
    Item::Dynamic {
        name: name_of(name.text.as_slice()),
        dir: dir_of(dir),
        on: on_of(scope, on),
        next_id: 1,
        rules: List::of_vec(Vec::new(alloc)),
    }
}

fn on_fault<'a>(scope: &Scope<'_, 'a, '_>, on: &'a Option<Boxed<IfaceTree>>) -> Option<ConfFault>
    ensures { result ≡ first_fault (on_faults (ifaces_of_scope scope.now) (env_of_scope scope.now) on.now) }
{
    match on {
        Some(iface) => scope.iface_fault(iface.get()),
        None => None,
    }
}

fn on_of<'a>(scope: &Scope<'_, 'a, '_>, on: &'a Option<Boxed<IfaceTree>>) -> Option<OnIf>
    ensures { result ≡ option_map (on_iface (ifaces_of_scope scope.now) (env_of_scope scope.now)) on.now }
{
    match on {
        Some(iface) => Some(scope.on_iface(iface.get())),
        None => None,
    }
}

/// The first fault of a rule, but for the number of its elements.
#[tactic(auto, using(npf_expand_values::proofs::FaultLemmas::both_faults))]
pub(crate) fn rule_fault<'a>(scope: &Scope<'_, 'a, '_>, rule: &'a RuleTree) -> Option<ConfFault>
    ensures { result ≡ first_fault (rule_faults (ifaces_of_scope scope.now) (env_of_scope scope.now) rule.now) }
{
    earlier(on_fault(scope, &rule.on), filter_fault(scope, &rule.filter))
}

pub(crate) fn rule_of<'a>(
    scope: &Scope<'_, 'a, '_>,
    alloc: Global,
    tree: &'a RuleTree,
) -> Result<Rule, NoMemory>
    ensures { IfOk result (λ rule. rule ≡ rule_of_tree (ifaces_of_scope scope.now) (env_of_scope scope.now) (declared_of_scope scope.now) tree.now) }
{
    let mut rule = filter_rule(scope, alloc, &tree.filter)?;
    rule.decision = decision_of(&tree.action);
    rule.state = state_of(&tree.stateful);
    rule.dir = dir_of(&tree.dir);
    rule.last = tree.last;
    rule.on = on_of(scope, &tree.on);
    rule.procedure = procedure_of(scope, &tree.apply);
    Ok(rule)
}

fn procedure_of(scope: &Scope, apply: &Option<Str>) -> Option<u32>
    ensures { result ≡ option_map (λ string. table_number (declared_of_scope scope.now).procedures string.text) apply.now }
{
    match apply {
        Some(string) => Some(scope.declarations.procedure(string.text.as_slice())),
        None => None,
    }
}
