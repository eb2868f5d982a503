// Where a rule stands in a model.
ghost use Rattle.std.specs.Prelude.{◌≡◌, ◌<◌, Some, length, slice_get};
ghost use Rattle.npf_model.specs.Verdict.{rules_at};
ghost use Rattle.npf_ruleset.specs.Place.{IsPlaceOfRule, placed_at, placed_rule};

use npf_model::{Group, Item, OnIf, Rule};
use npf_types::Dir;

/// The place of a rule, each counted from 0: its group, its item in the group, and its number in the
/// item, which is 0 but in a dynamic ruleset.
#[derive(Clone, Copy, Drop)]
pub(crate) struct RulePlace {
    pub(crate) group: usize,
    pub(crate) item: usize,
    pub(crate) number: usize,
}

/// A rule at its place, with the direction and the interface of its ruleset.
#[derive(Clone, Copy)]
pub struct Placed<'a> {
    pub within_dir: Option<Dir>,
    pub within_on: Option<OnIf>,
    pub rule: &'a Rule,
}

pub(crate) fn placed_at(groups: &[Group], place: RulePlace) -> Placed<'_>
    requires { IsPlaceOfRule groups.now place }
    ensures { placed_at groups.now place ≡ Some (placed_rule result) }
{
    let group = &groups[place.group];
    let item = &group.items.as_slice()[place.item];
    placed_in(item, place.number)
}

fn placed_in(item: &Item, number: usize) -> Placed<'_>
    requires { number < length (rules_at item.now) }
    ensures { slice_get (rules_at item.now) number ≡ Some (placed_rule result) }
{
    match item {
        Item::One(rule) => Placed {
            within_dir: None,
            within_on: None,
            rule,
        },
        Item::Dynamic { dir, on, rules, .. } => Placed {
            within_dir: *dir,
            within_on: *on,
            rule: &rules.as_slice()[number].1,
        },
    }
}

/// How many rules stand at an item's place.
pub fn count_of(item: &Item) -> usize
    ensures { result ≡ length (rules_at item.now) }
{
    match item {
        Item::One(_) => 1,
        Item::Dynamic { rules, .. } => rules.as_slice().len(),
    }
}
