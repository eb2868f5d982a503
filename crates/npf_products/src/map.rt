// What a map asks of a packet in one direction.
ghost use Rattle.std.specs.Prelude.{◌≡◌, OnOk};
ghost use Rattle.npf_model.specs.MapOf.{comes_inside, fits_filter, fits_map_protocol, fits_segment, goes_outside};
ghost use Rattle.npf_products.specs.Adds.{AddsTest};
ghost use Rattle.npf_products.specs.End.{own_tables};
ghost use Rattle.npf_products.specs.Product.{applies_in};

use crate::add::{add_number, add_test};
use crate::condition::{Condition, FIRST};
use crate::ends::{WhichEnd, add_side};
use crate::kind::PacketKind;
use crate::place::{add_direction, add_on};
use crate::rule::add_rule;
use crate::tables::TableSpan;
use npf_model::{Arrow, Map, Rule};
use npf_types::{Dir, NoMemory};
use std::alloc::Global;

/// Adds what the map asks of a packet that passes in the direction.
pub(crate) fn add_map(
    alloc: Global,
    conditions: &mut Vec<Condition>,
    kind: PacketKind,
    map: &Map,
    dir: Dir,
    tables: TableSpan,
) -> Result<(), NoMemory>
    ensures { OnOk result (AddsTest kind conditions.old.items conditions.new.items (λ all. applies_in dir map.now (own_tables tables all))) }
{
    add_direction(alloc, conditions, Some(dir))?;
    add_on(alloc, conditions, map.on.id)?;
    add_protocol(alloc, conditions, kind, map.proto)?;
    add_filter(alloc, conditions, kind, &map.filter, tables)?;
    add_segment(alloc, conditions, kind, map, dir)?;
    Ok(())
}

fn add_filter(
    alloc: Global,
    conditions: &mut Vec<Condition>,
    kind: PacketKind,
    asked: &Option<Rule>,
    tables: TableSpan,
) -> Result<(), NoMemory>
    ensures { OnOk result (AddsTest kind conditions.old.items conditions.new.items (λ all facts _ _. fits_filter asked.now (own_tables tables all) facts)) }
{
    let Some(rule) = asked else {
        return Ok(());
    };
    add_rule(alloc, conditions, kind, rule, tables)?;
    Ok(())
}

fn add_protocol(
    alloc: Global,
    conditions: &mut Vec<Condition>,
    kind: PacketKind,
    asked: Option<u8>,
) -> Result<(), NoMemory>
    ensures { OnOk result (AddsTest kind conditions.old.items conditions.new.items (λ _ facts _ _. fits_map_protocol asked facts.proto)) }
{
    let Some(asked) = asked else {
        return Ok(());
    };
    match kind.protocol() {
        Some(protocol) => add_test(alloc, conditions, asked == protocol),
        None => add_number(alloc, conditions, FIRST, asked),
    }
}

/// Adds that the map translates in the direction, and that the packet's end on that side lies in the map's: outwards the source in the left
/// side, inwards the destination in the right one.
fn add_segment(
    alloc: Global,
    conditions: &mut Vec<Condition>,
    kind: PacketKind,
    map: &Map,
    dir: Dir,
) -> Result<(), NoMemory>
    ensures { OnOk result (AddsTest kind conditions.old.items conditions.new.items (λ _ facts _ _. fits_segment map.now facts dir)) }
{
    match dir {
        Dir::Out => add_outward(alloc, conditions, kind, map),
        Dir::In => add_inward(alloc, conditions, kind, map),
    }
}

fn add_outward(
    alloc: Global,
    conditions: &mut Vec<Condition>,
    kind: PacketKind,
    map: &Map,
) -> Result<(), NoMemory>
    ensures { OnOk result (AddsTest kind conditions.old.items conditions.new.items (λ _ facts _ _. fits_segment map.now facts Dir.Out)) }
{
    add_test(alloc, conditions, goes_outside(map.arrow))?;
    add_side(alloc, conditions, kind, WhichEnd::Source, &map.inside)?;
    Ok(())
}

fn add_inward(
    alloc: Global,
    conditions: &mut Vec<Condition>,
    kind: PacketKind,
    map: &Map,
) -> Result<(), NoMemory>
    ensures { OnOk result (AddsTest kind conditions.old.items conditions.new.items (λ _ facts _ _. fits_segment map.now facts Dir.In)) }
{
    add_test(alloc, conditions, comes_inside(map.arrow))?;
    add_side(alloc, conditions, kind, WhichEnd::Destination, &map.outside)?;
    Ok(())
}

fn goes_outside(arrow: Arrow) -> bool
    ensures { result ≡ goes_outside arrow }
{
    arrow != Arrow::ToInside
}

fn comes_inside(arrow: Arrow) -> bool
    ensures { result ≡ comes_inside arrow }
{
    arrow != Arrow::ToOutside
}
