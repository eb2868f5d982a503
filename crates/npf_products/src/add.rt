// Conditions that are put behind others.
ghost use Rattle.std.specs.Prelude.{◌<◌, ◌∷◌, [], OnOk};
ghost use Rattle.npf_products.specs.declared.kind.PacketKind.{PacketKind};
ghost use Rattle.npf_products.specs.Adds.{AddsTest, constant, equals_number, lies_in};

use crate::condition::{Condition, PLACE};
use npf_types::NoMemory;
use std::alloc::Global;

/// Adds the condition that no packet meets, unless the test holds.
pub(crate) fn add_test(
    alloc: Global,
    conditions: &mut Vec<Condition>,
    holds: bool,
) -> Result<(), NoMemory>
    ensures { OnOk result ((kind : PacketKind) → AddsTest kind conditions.old.items conditions.new.items (constant holds)) }
{
    if holds {
        return Ok(());
    }
    add_ranges(alloc, conditions, PLACE, Vec::new(alloc))?;
    Ok(())
}

/// Adds the condition that a number lies in one of the ranges.
pub(crate) fn add_ranges(
    alloc: Global,
    conditions: &mut Vec<Condition>,
    dimension: usize,
    ranges: Vec<(u128, u128)>,
) -> Result<(), NoMemory>
    requires { dimension < 6 }
    ensures { OnOk result ((kind : PacketKind) → AddsTest kind conditions.old.items conditions.new.items (lies_in dimension ranges.items)) }
{
    conditions.push(Condition {
        dimension,
        excluded: false,
        ranges,
        tables: Vec::new(alloc),
    })?;
    Ok(())
}

/// Adds the condition that a number lies in the range.
pub(crate) fn add_range(
    alloc: Global,
    conditions: &mut Vec<Condition>,
    dimension: usize,
    low: u128,
    high: u128,
) -> Result<(), NoMemory>
    requires { dimension < 6 }
    ensures { OnOk result ((kind : PacketKind) → AddsTest kind conditions.old.items conditions.new.items (lies_in dimension ((low, high) ∷ []))) }
{
    add_ranges(alloc, conditions, dimension, vec![in alloc; (low, high)]?)
}

/// Adds that a number is this one.
pub(crate) fn add_number(
    alloc: Global,
    conditions: &mut Vec<Condition>,
    dimension: usize,
    number: u8,
) -> Result<(), NoMemory>
    requires { dimension < 6 }
    ensures { OnOk result ((kind : PacketKind) → AddsTest kind conditions.old.items conditions.new.items (equals_number dimension number)) }
{
    add_range(
        alloc,
        conditions,
        dimension,
        u128::from(number),
        u128::from(number),
    )?;
    Ok(())
}
