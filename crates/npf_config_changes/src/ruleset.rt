// What a name names.
ghost use Rattle.std.specs.Prelude.{◌≡◌, ◌<◌, IfOk, IfSome, length};
ghost use Rattle.npf_model.specs.Verdict.{first_where};
ghost use Rattle.std.specs.List.{flat_map};
ghost use Rattle.npf_config_changes.specs.Changes.{found_ruleset};
ghost use Rattle.npf_config_changes.specs.Found.{ruleset_of, told_ruleset};
ghost use Rattle.npf_config_changes.specs.Rulesets.{are_one_name, has_rule, rulesets_at, rulesets_in};

use npf_model::{Group, Item, Rule, TableDecl};
use npf_types::Name;

pub(crate) fn is_name(name: &Name, other: &Name) -> bool
    ensures { result ≡ are_one_name name.now other.now }
{
    name.as_bytes() == other.as_bytes()
}

/// The place of the table of this name, counted from 0; None where no table has it.
pub fn table_place(decls: &[TableDecl], name: &Name) -> Option<usize>
    ensures place { result ≡ first_where (λ decl. are_one_name decl.name name.now) 0 decls.now }
    ensures bound { IfSome result (λ at. at < length decls.now) }
{
    for (at, decl) in decls.iter().enumerate() {
        if is_name(&decl.name, name) {
            return Some(at);
        }
    }
    None
}

/// A ruleset as a model has it.
#[derive(Clone, Copy)]
pub(crate) struct RulesetView<'a> {
    pub(crate) next_id: u32,
    pub(crate) rules: &'a [(u32, Rule)],
}

/// The first ruleset of this name.
pub(crate) fn find_ruleset<'a>(groups: &'a [Group], name: &Name) -> Option<RulesetView<'a>>
    ensures { told_ruleset result ≡ found_ruleset (flat_map (rulesets_in name.now) groups.now) }
{
    for group in groups {
        if let Some(found) = find_in(group.items.as_slice(), name) {
            return Some(found);
        }
    }
    None
}

fn find_in<'a>(items: &'a [Item], name: &Name) -> Option<RulesetView<'a>>
    ensures { told_ruleset result ≡ found_ruleset (flat_map (rulesets_at name.now) items.now) }
{
    for item in items {
        if let Some(found) = ruleset_at(item, name) {
            return Some(found);
        }
    }
    None
}

fn ruleset_at<'a>(item: &'a Item, name: &Name) -> Option<RulesetView<'a>>
    ensures { told_ruleset result ≡ found_ruleset (rulesets_at name.now item.now) }
{
    match item {
        Item::Dynamic {
            name: own,
            next_id,
            rules,
            ..
        } => {
            if !is_name(own, name) {
                return None;
            }
            Some(RulesetView {
                next_id: *next_id,
                rules: rules.as_slice(),
            })
        }
        Item::One(_) => None,
    }
}

impl RulesetView<'_> {
    pub(crate) fn has_rule(&self, id: u32) -> bool
        ensures { result ≡ has_rule id (ruleset_of self.now) }
    {
        self.rules.iter().any(|numbered| numbered.0 == id)
    }
}
