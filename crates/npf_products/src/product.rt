// What is turned into a box.
ghost use Rattle.std.specs.Prelude.{◌≡◌, ℕ, List, [], IfOk, OnOk, map, slice_index};
ghost use Rattle.npf_model.specs.Describes.{describes};
ghost use Rattle.npf_precedence.specs.Entry.{ordered_rule};
ghost use Rattle.npf_precedence.specs.PrecedenceLaw.{meets};
ghost use Rattle.npf_products.specs.Adds.{AddsTest};
ghost use Rattle.npf_products.specs.Condition.{Ranges, all_fit};
ghost use Rattle.npf_products.specs.End.{own_tables};
ghost use Rattle.npf_products.specs.Lists.{AsksPossible};
ghost use Rattle.npf_products.specs.Product.{product_holds, is_unknown_protocol, known_protocols};

use crate::condition::{Condition, FIRST};
use crate::kind::{Carried, IpFamily, PacketKind};
use crate::map::add_map;
use crate::place::{add_direction, add_interface};
use crate::rule::{add_rule, single_numbers};
use crate::tables::TableSpan;
use npf_model::{Map, Rule};
use npf_precedence::RuleEntry;
use npf_types::{Dir, List, NoMemory};
use std::alloc::Global;

/// What packets are put to: a rule at its place in a configuration, a map in one direction, or a rule by itself.
#[derive(Clone, Copy)]
pub enum Subject<'a> {
    Entry(RuleEntry<'a>),
    Map(&'a Map, Dir),
    Rule(&'a Rule),
}

/// What is turned into a box, with the tables of its configuration.
#[derive(Clone, Copy)]
pub struct Product<'a> {
    pub subject: Subject<'a>,
    pub tables: TableSpan,
}

/// What the product asks of packets of the kind.
pub(crate) fn conditions_of(
    alloc: Global,
    kind: PacketKind,
    product: &Product<'_>,
) -> Result<List<Condition>, NoMemory>
    ensures { IfOk result (λ conditions. AddsTest kind [] conditions (product_holds product.now)) }
{
    let mut conditions = Vec::new(alloc);
    let tables = product.tables;
    match &product.subject {
        Subject::Entry(entry) => add_entry(alloc, &mut conditions, kind, entry, tables)?,
        Subject::Map(map, dir) => add_map(alloc, &mut conditions, kind, map, *dir, tables)?,
        Subject::Rule(rule) => add_placed(alloc, &mut conditions, kind, tables, rule)?,
    }
    Ok(List::of_vec(conditions))
}

/// Adds what a rule asks at its place.
fn add_entry(
    alloc: Global,
    conditions: &mut Vec<Condition>,
    kind: PacketKind,
    entry: &RuleEntry<'_>,
    tables: TableSpan,
) -> Result<(), NoMemory>
    ensures { OnOk result (AddsTest kind conditions.old.items conditions.new.items
        (λ all facts ifid dir. meets (own_tables tables all) facts ifid dir (ordered_rule entry.now))) }
{
    add_direction(alloc, conditions, entry.group_dir)?;
    add_interface(alloc, conditions, entry.group_on)?;
    add_direction(alloc, conditions, entry.within_dir)?;
    add_interface(alloc, conditions, entry.within_on)?;
    add_placed(alloc, conditions, kind, tables, entry.rule)?;
    Ok(())
}

/// Adds what a rule asks with its own direction and interface.
fn add_placed(
    alloc: Global,
    conditions: &mut Vec<Condition>,
    kind: PacketKind,
    tables: TableSpan,
    rule: &Rule,
) -> Result<(), NoMemory>
    ensures { OnOk result (AddsTest kind conditions.old.items conditions.new.items
        (λ all facts ifid dir. describes rule.now (own_tables tables all) facts ifid dir)) }
{
    add_direction(alloc, conditions, rule.dir)?;
    add_interface(alloc, conditions, rule.on)?;
    add_rule(alloc, conditions, kind, rule, tables)?;
    Ok(())
}

/// What is asked of packets of the kind so that there can be one: what isn't looked into has none of the protocols that are, and over IPv6
/// none of an extension header.
pub(crate) fn possible(alloc: Global, kind: PacketKind) -> Result<List<Condition>, NoMemory>
    ensures { IfOk result (AsksPossible kind) }
{
    match kind.carried {
        Carried::Other => unknown(alloc, kind.family),
        _ => Ok(List::of_vec(Vec::new(alloc))),
    }
}

/// What is asked of packets of the family that aren't looked into.
fn unknown(alloc: Global, family: IpFamily) -> Result<List<Condition>, NoMemory>
    ensures { IfOk result (λ conditions. (tables : List Ranges) (numbers : List ℕ)
        → all_fit tables numbers conditions ≡ is_unknown_protocol family (slice_index numbers 3)) }
{
    let condition = Condition {
        dimension: FIRST,
        excluded: true,
        ranges: known_protocols(alloc, family)?,
        tables: Vec::new(alloc),
    };
    Ok(List::of_vec(vec![in alloc; condition]?))
}

/// The protocols of no packet that isn't looked into.
fn known_protocols(alloc: Global, family: IpFamily) -> Result<Vec<(u128, u128)>, NoMemory>
    ensures { IfOk result (λ ranges. ranges.items ≡ map (λ n. (n, n)) (known_protocols family)) }
{
    match family {
        IpFamily::Inet4 => single_numbers(alloc, &[1, 6, 17]),
        IpFamily::Inet6 => single_numbers(alloc, &[0, 6, 17, 43, 44, 51, 58, 60]),
    }
}
