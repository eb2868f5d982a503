// What a rule or a map asks of one end of a packet: of its address and of its port.
ghost use Rattle.std.specs.Prelude.{◌≡◌, ◌++◌, Some, OnOk, IfOk};
ghost use Rattle.npf_model.specs.Describes.{fits_addrs, fits_ends, fits_ports};
ghost use Rattle.npf_model.specs.MapOf.{fits_side};
ghost use Rattle.npf_products.specs.Adds.{AddsTest};
ghost use Rattle.npf_products.specs.End.{HasItems, address_at, may_hold, port_at, numbers_among, own_tables};

use crate::add::{add_ranges, add_test};
use crate::block::add_block;
use crate::condition::{Condition, DESTINATION, FIRST, SECOND, SOURCE};
use crate::kind::{IpFamily, PacketKind};
use crate::tables::TableSpan;
use npf_model::{AddrItem, Ends, Side, some_allow};
use npf_types::NoMemory;
use std::alloc::Global;

/// An end of a packet.
#[derive(Clone, Copy)]
pub(crate) enum WhichEnd {
    Source,
    Destination,
}

impl WhichEnd {
    ghost use Rattle.npf_products.specs.End.{address_dimension, port_dimension};

    fn address(self) -> usize
        ensures { result ≡ address_dimension self }
    {
        match self {
            WhichEnd::Source => SOURCE,
            WhichEnd::Destination => DESTINATION,
        }
    }

    fn port(self) -> usize
        ensures { result ≡ port_dimension self }
    {
        match self {
            WhichEnd::Source => FIRST,
            WhichEnd::Destination => SECOND,
        }
    }
}

/// Adds what a rule asks of an end.
pub(crate) fn add_end(
    alloc: Global,
    conditions: &mut Vec<Condition>,
    kind: PacketKind,
    end: WhichEnd,
    asked: &Ends,
    tables: TableSpan,
) -> Result<(), NoMemory>
    ensures { OnOk result (AddsTest kind conditions.old.items conditions.new.items
        (λ all facts _ _. fits_ends asked.now (own_tables tables all) (address_at end facts) (port_at end facts.l4))) }
{
    add_addresses(alloc, conditions, kind, end, tables, asked)?;
    match &asked.ports {
        None => Ok(()),
        Some(ports) => add_ports(alloc, conditions, kind, end, ports.as_slice()),
    }
}

fn add_addresses(
    alloc: Global,
    conditions: &mut Vec<Condition>,
    kind: PacketKind,
    end: WhichEnd,
    tables: TableSpan,
    asked: &Ends,
) -> Result<(), NoMemory>
    ensures { OnOk result (AddsTest kind conditions.old.items conditions.new.items
        (λ all facts _ _. fits_addrs asked.now.excluded asked.now.addrs (own_tables tables all) (address_at end facts))) }
{
    let Some(items) = &asked.addrs else {
        return Ok(());
    };
    let items = items.as_slice();
    add_test(
        alloc,
        conditions,
        may_hold(asked.excluded, items, kind.is_inet6_family()),
    )?;
    let mut condition = Condition {
        dimension: end.address(),
        excluded: asked.excluded,
        ranges: Vec::new(alloc),
        tables: Vec::new(alloc),
    };
    add_items(&mut condition, kind.family, items, tables)?;
    conditions.push(condition)?;
    Ok(())
}

/// Whether some address of the family may do: where the items are excluded, one of them is of the family.
fn may_hold(excluded: bool, items: &[AddrItem], v6: bool) -> bool
    ensures { result ≡ may_hold excluded items.now v6 }
{
    !excluded || some_allow(items, v6)
}

/// Adds the items to the ranges and the tables of the condition.
fn add_items(
    condition: &mut Condition,
    family: IpFamily,
    items: &[AddrItem],
    tables: TableSpan,
) -> Result<(), NoMemory>
    ensures { OnOk result (HasItems family tables items.now condition.old condition.new) }
{
    for item in items {
        match item {
            AddrItem::Net(prefix) => add_block(&mut condition.ranges, family, prefix)?,
            AddrItem::InTable(number) => add_table(&mut condition.tables, *number, tables)?,
        }
    }
    Ok(())
}

/// Adds the table of this number in its configuration, if there is one.
fn add_table(numbers: &mut Vec<usize>, number: u32, tables: TableSpan) -> Result<(), NoMemory>
    ensures { OnOk result (numbers.new.items ≡ numbers.old.items ++ numbers_among tables number) }
{
    if (number as usize) < tables.count {
        numbers.push(tables.first + number as usize)?;
    }
    Ok(())
}

/// Adds that the packet has ports, and that the one of this end lies in one of the ranges.
fn add_ports(
    alloc: Global,
    conditions: &mut Vec<Condition>,
    kind: PacketKind,
    end: WhichEnd,
    ports: &[(u16, u16)],
) -> Result<(), NoMemory>
    ensures { OnOk result (AddsTest kind conditions.old.items conditions.new.items (λ _ facts _ _. fits_ports (Some ports.now) (port_at end facts.l4))) }
{
    add_test(alloc, conditions, kind.has_port_numbers())?;
    add_ranges(alloc, conditions, end.port(), port_ranges(alloc, ports)?)?;
    Ok(())
}

fn port_ranges(alloc: Global, ports: &[(u16, u16)]) -> Result<Vec<(u128, u128)>, NoMemory>
    ensures { IfOk result (λ ranges. ranges.items ≡ ports.now) }
{
    let mut ranges = Vec::with_capacity(alloc, ports.len())?;
    for (low, high) in ports {
        ranges.push((u128::from(*low), u128::from(*high)))?;
    }
    Ok(ranges)
}

/// Adds what a side of a map asks of an end.
pub(crate) fn add_side(
    alloc: Global,
    conditions: &mut Vec<Condition>,
    kind: PacketKind,
    end: WhichEnd,
    side: &Side,
) -> Result<(), NoMemory>
    ensures { OnOk result (AddsTest kind conditions.old.items conditions.new.items
        (λ _ facts _ _. fits_side side.now (address_at end facts) (port_at end facts.l4))) }
{
    let mut addresses = Vec::new(alloc);
    add_block(&mut addresses, kind.family, &side.net)?;
    add_ranges(alloc, conditions, end.address(), addresses)?;
    match side.ports {
        None => Ok(()),
        Some(ports) => add_ports(alloc, conditions, kind, end, &[ports]),
    }
}
