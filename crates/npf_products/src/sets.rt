// The sets of numbers that cut a dimension.
ghost use Rattle.std.specs.Prelude.{◌≡◌, ◌<◌, ◌+◌, ◌++◌, ℕ, [], IfOk, OnOk, length, map, slice_index_or};
ghost use Rattle.npf_products.specs.Condition.{tables_in};
ghost use Rattle.npf_products.specs.Sets.{AreBelow, AreConditionSets, AreSets, SetsGrow, IsSet};

use crate::condition::{Condition, DESTINATION, SOURCE};
use npf_cut::Range;
use npf_types::{List, NoMemory};
use std::alloc::Global;

/// The sets of a dimension, by ranges of numbers, and how many they are.
#[derive(Drop)]
pub(crate) struct Sets {
    pub(crate) ranges: Vec<Range>,
    pub(crate) count: usize,
}

/// The sets of a dimension, first those of the tables, if it has addresses, and then those of the conditions on it; and the number of each
/// condition's set, 0 where the condition is on another dimension.
pub(crate) fn sets_of(
    alloc: Global,
    dimension: usize,
    tables: &[List<(u128, u128)>],
    lists: &[List<Condition>],
) -> Result<(Sets, Vec<List<usize>>), NoMemory>
    ensures { IfOk result (λ made. AreSets dimension tables.now lists.now made.0.ranges.items made.0.count made.1.items) }
{
    let mut sets = table_sets(alloc, tables_in(dimension, tables))?;
    let mut numbers = Vec::new(alloc);
    for conditions in lists {
        numbers.push(add_conditions(alloc, &mut sets, dimension, conditions.as_slice())?)?;
    }
    Ok((sets, numbers))
}

/// The tables, if the dimension has addresses; else none.
pub(crate) fn tables_in<'a>(
    dimension: usize,
    tables: &'a [List<(u128, u128)>],
) -> &'a [List<(u128, u128)>]
    ensures { result.now ≡ tables_in dimension tables.now }
{
    if dimension == SOURCE || dimension == DESTINATION {
        tables
    } else {
        &[]
    }
}

/// The sets of the tables.
fn table_sets(alloc: Global, tables: &[List<(u128, u128)>]) -> Result<Sets, NoMemory>
    ensures below { IfOk result (λ sets. AreBelow sets.ranges.items sets.count) }
    ensures tables { IfOk result (λ sets. (table : ℕ) → table < length tables.now
        → IsSet sets.ranges.items sets.count table (slice_index_or tables.now table [])) }
{
    let mut sets = Sets {
        ranges: Vec::new(alloc),
        count: 0,
    };
    for table in tables {
        add_set(&mut sets, table.as_slice())?;
    }
    Ok(sets)
}

/// Adds the sets of the conditions on the dimension, and tells their numbers.
fn add_conditions(
    alloc: Global,
    sets: &mut Sets,
    dimension: usize,
    conditions: &[Condition],
) -> Result<List<usize>, NoMemory>
    requires below { AreBelow sets.old.ranges.items sets.old.count }
    ensures below { OnOk result (AreBelow sets.new.ranges.items sets.new.count) }
    ensures grows { OnOk result (SetsGrow sets.old.ranges.items sets.old.count sets.new.ranges.items sets.new.count) }
    ensures len { IfOk result (λ numbers. length numbers ≡ length conditions.now) }
    ensures numbers { IfOk result (λ numbers. AreConditionSets dimension sets.new.ranges.items sets.new.count conditions.now numbers) }
{
    let mut numbers = Vec::new(alloc);
    for condition in conditions {
        numbers.push(add_condition(sets, dimension, condition)?)?;
    }
    Ok(List::of_vec(numbers))
}

/// Adds the set of the condition, and tells its number; 0 where it is on another dimension.
#[tactic(auto, using(crate::proofs::SetsLemmas::grows_none))]
fn add_condition(
    sets: &mut Sets,
    dimension: usize,
    condition: &Condition,
) -> Result<usize, NoMemory>
    requires below { AreBelow sets.old.ranges.items sets.old.count }
    ensures below { OnOk result (AreBelow sets.new.ranges.items sets.new.count) }
    ensures grows { OnOk result (SetsGrow sets.old.ranges.items sets.old.count sets.new.ranges.items sets.new.count) }
    ensures set { IfOk result (λ number. condition.now.dimension ≡ dimension → IsSet sets.new.ranges.items sets.new.count number condition.now.ranges.items) }
{
    if condition.dimension != dimension {
        return Ok(0);
    }
    let number = sets.count;
    add_set(sets, condition.ranges.as_slice())?;
    Ok(number)
}

/// Adds the set that has these ranges.
fn add_set(sets: &mut Sets, own: &[(u128, u128)]) -> Result<(), NoMemory>
    requires below { AreBelow sets.old.ranges.items sets.old.count }
    ensures below { OnOk result (AreBelow sets.new.ranges.items sets.new.count) }
    ensures grows { OnOk result (SetsGrow sets.old.ranges.items sets.old.count sets.new.ranges.items sets.new.count) }
    ensures counted { OnOk result (sets.new.count ≡ sets.old.count + 1) }
    ensures set { OnOk result (IsSet sets.new.ranges.items sets.new.count sets.old.count own.now) }
{
    let set = sets.count;
    if set == usize::MAX {
        return Err(NoMemory);
    }
    add_ranges(&mut sets.ranges, set, own)?;
    sets.count = set + 1;
    Ok(())
}

/// Adds these ranges to the set.
fn add_ranges(ranges: &mut Vec<Range>, set: usize, own: &[(u128, u128)]) -> Result<(), NoMemory>
    ensures { OnOk result (ranges.new.items ≡ ranges.old.items ++ map (λ r. record { set = set; low = r.0; high = r.1 }) own.now) }
{
    for (low, high) in own {
        ranges.push(Range {
            set,
            low: *low,
            high: *high,
        })?;
    }
    Ok(())
}
