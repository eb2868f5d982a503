// The comparison.
ghost use Rattle.std.specs.Prelude.{◌≡◌, ◌≤◌, IfOk, IsErrOf};
ghost use Rattle.npf_steps.specs.Spent.{IsSpent};
ghost use Rattle.npf_reach.specs.Kinds.{AreKindsOf};
ghost use Rattle.npf_compare.specs.Difference.{AreRuleDifferences};
ghost use Rattle.npf_compare.specs.Side.{AreJoined, IsSideOf, side_config};

use crate::both::BothOrders;
use crate::difference::RuleDifference;
use crate::places::order_places;
use crate::products::{products_of_both, tables_of_both};
use crate::side::RuleSide;
use npf_model::Model;
use npf_precedence::{each_rule_once, first_match_decides, in_order};
use npf_products::Product;
use npf_reach::{KindCells, Packets, cells_of};
use npf_steps::{Steps, Stopped};
use npf_types::{List, Prefix};
use std::alloc::Global;

/// The pairs of an old rule and a new one, or none, by which two configurations treat a packet otherwise, but for what a map writes: with a packet for each, by
/// the places of the old rules, and for one of them by those of the new ones. The tables are those of each, in the order in which its model declares them, and
/// both are numbered by one list of interfaces.
///
/// # Errors
/// `Stopped::Spent` where the steps don't suffice, and want of memory.
pub fn compare_rules(
    alloc: Global,
    old: &Model,
    old_tables: &[List<Prefix>],
    new: &Model,
    new_tables: &[List<Prefix>],
    steps: &mut Steps,
) -> Result<Vec<RuleDifference>, Stopped>
    ensures differences { IfOk result (λ differences. AreRuleDifferences (record { model = old.now; tables = old_tables.now })
        (record { model = new.now; tables = new_tables.now }) differences.items) }
    ensures spent { IsErrOf result Stopped.Spent → IsSpent steps.new }
    ensures most { steps.new.most ≡ steps.old.most }
    ensures rises { steps.old.taken ≤ steps.new.taken }
{
    each_rule_once();
    let old_order = in_order(alloc, old.groups.as_slice())?;
    let old_at = order_places(alloc, old_order.as_slice())?;
    let new_order = in_order(alloc, new.groups.as_slice())?;
    let new_at = order_places(alloc, new_order.as_slice())?;
    let old_side = RuleSide {
        model: old,
        tables: old_tables,
        order: old_order.as_slice(),
        at: old_at.as_slice(),
    };
    let new_side = RuleSide {
        model: new,
        tables: new_tables,
        order: new_order.as_slice(),
        at: new_at.as_slice(),
    };
    let differences = compare_sides(alloc, old_side, new_side, steps)?;
    Ok(differences)
}

/// The same of rules in their order of precedence.
fn compare_sides<'a>(
    alloc: Global,
    old: RuleSide<'a>,
    new: RuleSide<'a>,
    steps: &mut Steps,
) -> Result<Vec<RuleDifference>, Stopped>
    requires old { IsSideOf old }
    requires new { IsSideOf new }
    ensures differences { IfOk result (λ differences. AreRuleDifferences (side_config old.entry) (side_config new.entry) differences.items) }
    ensures spent { IsErrOf result Stopped.Spent → IsSpent steps.new }
    ensures most { steps.new.most ≡ steps.old.most }
    ensures rises { steps.old.taken ≤ steps.new.taken }
{
    first_match_decides();
    each_rule_once();
    let tables = tables_of_both(alloc, old.tables, new.tables)?;
    let tables = tables.as_slice();
    let products = products_of_both(alloc, old, new, tables)?;
    let cells = cells_of(alloc, tables, products.as_slice(), steps)?;
    let packets = Packets::new(alloc, tables, products.as_slice(), cells.as_slice())?;
    let both = BothOrders { old, new, packets };
    let asked = both.asked(alloc)?;
    let differences = both.differences(alloc, &asked, steps)?;
    Ok(differences)
}
