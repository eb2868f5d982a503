// The question.
ghost use Rattle.std.specs.Prelude.{◌≡◌, ◌≤◌, [], IfOk, IsErrOf, length};
ghost use Rattle.npf_steps.specs.Spent.{IsSpent};
ghost use Rattle.npf_reach.specs.Kinds.{AreKindsOf};
ghost use Rattle.npf_compare_maps.specs.MapDifference.{AreMapDifferences};
ghost use Rattle.npf_compare_maps.specs.Side.{IsRanked, IsSide, config_of};

use crate::comparison::MapComparison;
use crate::difference::MapDifference;
use crate::products::{add_products, joined_tables, span_from};
use crate::side::{RankedConfig, RankedSide};
use npf_model::Model;
use npf_precedence::{each_rule_once, first_match_decides, in_order};
use npf_products::Product;
use npf_reach::{KindCells, Packets, cells_of};
use npf_steps::{Steps, Stopped};
use npf_types::{List, Prefix};
use std::alloc::Global;

/// A configuration: its model, and its tables in the order in which the model declares them.
#[derive(Clone, Copy)]
pub struct MapSide<'a> {
    pub model: &'a Model,
    pub tables: &'a [List<Prefix>],
}

/// Both configurations, with the numbers of their products.
#[derive(Clone, Copy)]
struct Sides<'a> {
    before: RankedSide<'a>,
    after: RankedSide<'a>,
}

/// For which packets that two configurations pass alike their maps write different things, one for each pair of maps, by the maps' places. Both configurations are
/// numbered by one list of interfaces. Where neither has maps no step is taken.
///
/// # Errors
/// `Stopped::Spent` where the steps don't suffice, and want of memory.
pub fn compare_maps(
    alloc: Global,
    before: MapSide<'_>,
    after: MapSide<'_>,
    steps: &mut Steps,
) -> Result<Vec<MapDifference>, Stopped>
    ensures differences { IfOk result (λ differences. AreMapDifferences (record { model = before.entry.model.now; tables = before.entry.tables.now })
        (record { model = after.entry.model.now; tables = after.entry.tables.now }) differences.items) }
    ensures unmapped { before.entry.model.now.maps ≡ [] → after.entry.model.now.maps ≡ [] → steps.new ≡ steps.old }
    ensures spent { IsErrOf result Stopped.Spent → IsSpent steps.new }
    ensures most { steps.new.most ≡ steps.old.most }
    ensures rises { steps.old.taken ≤ steps.new.taken }
{
    if before.model.maps.as_slice().is_empty() && after.model.maps.as_slice().is_empty() {
        return Ok(Vec::new(alloc));
    }
    let old_order = in_order(alloc, before.model.groups.as_slice())?;
    let new_order = in_order(alloc, after.model.groups.as_slice())?;
    first_match_decides();
    each_rule_once();
    let old = RankedConfig {
        model: before.model,
        tables: before.tables,
        order: old_order.as_slice(),
    };
    let new = RankedConfig {
        model: after.model,
        tables: after.tables,
        order: new_order.as_slice(),
    };
    let differences = compare_ranked(alloc, old, new, steps)?;
    Ok(differences)
}

/// The same of rules in their order of precedence.
fn compare_ranked<'a>(
    alloc: Global,
    before: RankedConfig<'a>,
    after: RankedConfig<'a>,
    steps: &mut Steps,
) -> Result<Vec<MapDifference>, Stopped>
    requires before { IsRanked before }
    requires after { IsRanked after }
    ensures differences { IfOk result (λ differences. AreMapDifferences (config_of before.entry) (config_of after.entry) differences.items) }
    ensures spent { IsErrOf result Stopped.Spent → IsSpent steps.new }
    ensures most { steps.new.most ≡ steps.old.most }
    ensures rises { steps.old.taken ≤ steps.new.taken }
{
    let tables = joined_tables(alloc, before.tables, after.tables)?;
    let mut products = Vec::new(alloc);
    let old_span = span_from(0, before.tables);
    let new_span = span_from(before.tables.len(), after.tables);
    add_products(&mut products, old_span, &before)?;
    let first = products.len();
    add_products(&mut products, new_span, &after)?;
    let sides = Sides {
        before: RankedSide {
            config: before,
            first: 0,
        },
        after: RankedSide {
            config: after,
            first,
        },
    };
    let cells = cells_of(alloc, tables.as_slice(), products.as_slice(), steps)?;
    compare_cells(
        alloc,
        tables.as_slice(),
        products.as_slice(),
        cells.as_slice(),
        sides,
        steps,
    )
}

/// The same of products and their boxes.
fn compare_cells<'a>(
    alloc: Global,
    tables: &'a [List<Prefix>],
    products: &'a [Product<'a>],
    cells: &'a [KindCells],
    sides: Sides<'a>,
    steps: &mut Steps,
) -> Result<Vec<MapDifference>, Stopped>
    requires kinds { AreKindsOf tables.now products.now cells.now }
    requires before { IsSide tables.now products.now sides.before }
    requires after { IsSide tables.now products.now sides.after }
    ensures differences { IfOk result (λ differences. AreMapDifferences (config_of sides.entry.before.config) (config_of sides.entry.after.config) differences.items) }
    ensures spent { IsErrOf result Stopped.Spent → IsSpent steps.new }
    ensures most { steps.new.most ≡ steps.old.most }
    ensures rises { steps.old.taken ≤ steps.new.taken }
{
    let packets = Packets::new(alloc, tables, products, cells)?;
    let all = MapComparison {
        before: sides.before,
        after: sides.after,
        packets,
    };
    let differences = all.differences(alloc, steps)?;
    Ok(differences)
}
