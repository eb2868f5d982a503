// The rules of the text beside what they mean.
ghost use Rattle.std.specs.Prelude.{◌≡◌, ◌++◌, [], ◌∷◌, List, MatchOption, Option, None};
ghost use Rattle.std.specs.List.{flat_map};
ghost use Rattle.npf_syntax.specs.declared.filter.Filter.{Filter as Written};
ghost use Rattle.npf_syntax.specs.declared.group.ItemTree.{ItemTree as WrittenItem};
ghost use Rattle.npf_faults.specs.First.{first_fault};
ghost use Rattle.npf_check.specs.Pair.{first_beside};
ghost use Rattle.npf_check.specs.WrittenRule.{faults_of_filter, faults_of_group, faults_of_item, faults_of_pass, faults_of_rule, faults_of_rules, items_in, pass_of_map};

use crate::family::family_fault;
use crate::port::port_fault;
use npf_faults::{ConfFault, earlier};
use npf_model::{Group, Item as Meant, Map, Model, Rule};
use npf_syntax::{Boxed, Filter, GroupHead, ItemTree, Stmt, Tree};
use npf_types::Span;

/// Groups with names, which stand in a model in the order of the text, and the default group, which stands last.
#[derive(Clone, Copy)]
pub(crate) enum GroupKind {
    Named,
    Default,
}

/// The first fault of the rules, and of the filters of maps.
pub(crate) fn rules_fault(tree: &Tree, model: &Model) -> Option<ConfFault>
    ensures { result ≡ first_fault (faults_of_rules tree.now model.now) }
{
    let stmts = tree.stmts.as_slice();
    let named = in_groups(GroupKind::Named, stmts, model.groups.as_slice());
    let default = in_groups(GroupKind::Default, stmts, named.rest);
    let in_maps = filters_fault(stmts, model.maps.as_slice());
    earlier(earlier(named.first, default.first), in_maps)
}

// The groups of a model that are left, and the first fault of those before.
#[derive(Drop)]
struct GroupsLeft<'a> {
    first: Option<ConfFault>,
    rest: &'a [Group],
}

fn in_groups<'a>(kind: GroupKind, stmts: &[Stmt], groups: &'a [Group]) -> GroupsLeft<'a>
    ensures { (more : List (List WrittenItem)) → first_beside faults_of_group None (flat_map (items_in kind) stmts.now ++ more) groups.now
        ≡ first_beside faults_of_group result.first more result.rest.now }
{
    let mut left = GroupsLeft {
        first: None,
        rest: groups,
    };
    for stmt in stmts {
        left.pass(kind, stmt);
    }
    left
}

fn items_in(kind: GroupKind, stmt: &Stmt) -> Option<&[ItemTree]>
    ensures { MatchOption result (items_in kind stmt.now ≡ []) (λ items. items_in kind stmt.now ≡ items.now ∷ []) }
{
    let Stmt::Group { head, items, .. } = stmt else {
        return None;
    };
    match (kind, head) {
        (GroupKind::Named, GroupHead::Named { .. }) => Some(items.as_slice()),
        (GroupKind::Default, GroupHead::Default { .. }) => Some(items.as_slice()),
        _ => None,
    }
}

impl GroupsLeft<'_> {
    // Passes a statement, and where it is a group of this kind the next group, which it means.
    fn pass(&mut self, kind: GroupKind, stmt: &Stmt)
        ensures { (more : List (List WrittenItem)) → first_beside faults_of_group self.old.first (items_in kind stmt.now ++ more) self.old.rest.now
            ≡ first_beside faults_of_group self.new.first more self.new.rest.now }
    {
        let Some(items) = items_in(kind, stmt) else {
            return;
        };
        if let Some((group, rest)) = self.rest.split_first() {
            self.first = earlier(self.first, items_fault(items, group.items.as_slice()));
            self.rest = rest;
        }
    }
}

fn items_fault(items: &[ItemTree], meant: &[Meant]) -> Option<ConfFault>
    ensures { result ≡ first_beside faults_of_item None items.now meant.now }
{
    let mut first = None;
    for (item, meant) in items.iter().zip(meant.iter()) {
        first = earlier(first, item_fault(item, meant));
    }
    first
}

fn item_fault(item: &ItemTree, meant: &Meant) -> Option<ConfFault>
    ensures { result ≡ first_fault (faults_of_item (item.now, meant.now)) }
{
    match (item, meant) {
        (ItemTree::Rule { rule, .. }, Meant::One(meant)) => rule_fault(rule.span, meant),
        _ => None,
    }
}

/// The first fault of a rule that is written at this place.
pub(crate) fn rule_fault(span: Span, rule: &Rule) -> Option<ConfFault>
    ensures { result ≡ first_fault (faults_of_rule span rule.now) }
{
    earlier(family_fault(span, rule), port_fault(span, rule))
}

fn filters_fault(stmts: &[Stmt], maps: &[Map]) -> Option<ConfFault>
    ensures { result ≡ first_beside faults_of_pass None (flat_map pass_of_map stmts.now) maps.now }
{
    let mut left = FiltersLeft {
        first: None,
        rest: maps,
    };
    for stmt in stmts {
        left.pass(stmt);
    }
    left.first
}

// The maps of a model that are left, and the first fault of the filters of those before.
#[derive(Drop)]
struct FiltersLeft<'a> {
    first: Option<ConfFault>,
    rest: &'a [Map],
}

impl FiltersLeft<'_> {
    // Passes a statement, and where it is a map the next map, which it means.
    fn pass(&mut self, stmt: &Stmt)
        ensures { (more : List (Option Written)) → first_beside faults_of_pass self.old.first (pass_of_map stmt.now ++ more) self.old.rest.now
            ≡ first_beside faults_of_pass self.new.first more self.new.rest.now }
    {
        let Some(pass) = pass_of_map(stmt) else {
            return;
        };
        if let Some((map, rest)) = self.rest.split_first() {
            self.first = earlier(self.first, filter_fault(pass, &map.filter));
            self.rest = rest;
        }
    }
}

fn pass_of_map(stmt: &Stmt) -> Option<&Option<Boxed<Filter>>>
    ensures { MatchOption result (pass_of_map stmt.now ≡ []) (λ pass. pass_of_map stmt.now ≡ pass.now ∷ []) }
{
    match stmt {
        Stmt::Map { pass, .. } => Some(pass),
        _ => None,
    }
}

fn filter_fault(filter: &Option<Boxed<Filter>>, meant: &Option<Rule>) -> Option<ConfFault>
    ensures { result ≡ first_fault (faults_of_filter filter.now meant.now) }
{
    match (filter, meant) {
        (Some(filter), Some(meant)) => rule_fault(filter.get().span, meant),
        _ => None,
    }
}
