// The lines of groups, rules and maps.
ghost use Rattle.std.specs.Prelude.{◌≡◌, ◌++◌, OnOk, map, option_copied, option_map};
ghost use Rattle.npf_precedence.specs.Entry.{ordered_rule};
ghost use Rattle.npf_ctl_explain.specs.Beside.{beside, each_beside};
ghost use Rattle.npf_ctl_explain.specs.Line.{group_line, group_name_text, rule_line, told_map_line};

use crate::words::{group_words, write_map_words, write_rule_words};
use npf_ctl_query::write_ordinal;
use npf_explain::{GroupTold, MapTold, RuleTold};
use npf_model::{Group, Map, Model};
use npf_precedence::RuleEntry;
use npf_show::{show_map, show_rule};
use npf_text::{write_bytes, write_text};
use npf_types::NoMemory;
use std::alloc::Global;

pub(crate) fn write_group_line(
    into: &mut Vec<u8>,
    group: &Group,
    told: GroupTold,
) -> Result<(), NoMemory>
    ensures { OnOk result (into.new.items ≡ into.old.items ++ group_line group.now told) }
{
    write_text(into, "group")?;
    write_group_name(into, group.default, group.name.as_slice())?;
    write_text(into, group_words(told))?;
    write_text(into, "\n")
}

fn write_group_name(into: &mut Vec<u8>, default: bool, name: &[u8]) -> Result<(), NoMemory>
    ensures { OnOk result (into.new.items ≡ into.old.items ++ group_name_text default name.now) }
{
    if default {
        return write_text(into, " default");
    }
    write_text(into, " \"")?;
    write_bytes(into, name)?;
    write_text(into, "\"")
}

/// Appends the line of each rule of which something is told.
pub(crate) fn write_rules(
    alloc: Global,
    into: &mut Vec<u8>,
    model: &Model,
    rules: &[RuleEntry<'_>],
    told: &[RuleTold],
) -> Result<(), NoMemory>
    ensures { OnOk result (into.new.items ≡ into.old.items ++ each_beside (λ k. rule_line model.now) (map ordered_rule rules.now) told.now) }
{
    for at in 0..rules.len() {
        write_told_rule(alloc, into, model, rules.get(at), told.get(at))?;
    }
    Ok(())
}

fn write_told_rule(
    alloc: Global,
    into: &mut Vec<u8>,
    model: &Model,
    entry: Option<&RuleEntry<'_>>,
    told: Option<&RuleTold>,
) -> Result<(), NoMemory>
    ensures { OnOk result (into.new.items ≡ into.old.items
        ++ beside (rule_line model.now) (option_map ordered_rule (option_copied entry.entry)) (option_copied told.entry)) }
{
    match (entry, told) {
        (Some(entry), Some(told)) => write_rule_line(alloc, into, model, entry, *told),
        _ => Ok(()),
    }
}

fn write_rule_line(
    alloc: Global,
    into: &mut Vec<u8>,
    model: &Model,
    entry: &RuleEntry<'_>,
    told: RuleTold,
) -> Result<(), NoMemory>
    ensures { OnOk result (into.new.items ≡ into.old.items ++ rule_line model.now (ordered_rule entry.now) told) }
{
    write_text(into, "rule ")?;
    write_ordinal(into, entry.place)?;
    write_rule_words(into, told)?;
    write_text(into, "  ")?;
    let shown = show_rule(alloc, model, entry.rule)?;
    write_bytes(into, shown.as_slice())?;
    write_text(into, "\n")?;
    Ok(())
}

/// Appends the line of each map of which something is told.
pub(crate) fn write_maps(
    alloc: Global,
    into: &mut Vec<u8>,
    model: &Model,
    told: &[MapTold],
) -> Result<(), NoMemory>
    ensures { OnOk result (into.new.items ≡ into.old.items ++ each_beside (told_map_line model.now) model.now.maps told.now) }
{
    let maps = model.maps.as_slice();
    for at in 0..maps.len() {
        write_told_map(alloc, into, model, at, maps.get(at), told.get(at))?;
    }
    Ok(())
}

fn write_told_map(
    alloc: Global,
    into: &mut Vec<u8>,
    model: &Model,
    place: usize,
    map: Option<&Map>,
    told: Option<&MapTold>,
) -> Result<(), NoMemory>
    ensures { OnOk result (into.new.items ≡ into.old.items
        ++ beside (told_map_line model.now place) (option_copied map.entry) (option_copied told.entry)) }
{
    match (map, told) {
        (Some(map), Some(told)) => write_map_line(alloc, into, model, place, map, *told),
        _ => Ok(()),
    }
}

fn write_map_line(
    alloc: Global,
    into: &mut Vec<u8>,
    model: &Model,
    place: usize,
    map: &Map,
    told: MapTold,
) -> Result<(), NoMemory>
    ensures { OnOk result (into.new.items ≡ into.old.items ++ told_map_line model.now place map.now told) }
{
    write_text(into, "map ")?;
    write_ordinal(into, place)?;
    write_map_words(into, told)?;
    write_text(into, "  ")?;
    let shown = show_map(alloc, model, map)?;
    write_bytes(into, shown.as_slice())?;
    Ok(())
}
