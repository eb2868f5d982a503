// Which maps are the first that apply to packets of a class.
ghost use Rattle.std.specs.Prelude.{◌≡◌, ◌≤◌, ◌<◌, ◌+◌, ◌^◌};

use crate::classes::rule_of;
use crate::loads::Setting;
use anyhow::{Context, Result};
use npf_ctl_class::tables_of;
use npf_model::{Map, Rule};
use npf_products::{Product, Subject, TableSpan};
use npf_reach::{Packets, cells_of};
use npf_search::Decider;
use npf_steps::Steps;
use npf_types::{Dir, List, NoMemory, Prefix};
use std::alloc::Global;
use std::fmt::Write;

/// A line for each map, going out and coming in, that is the first to apply to some packet of the class, and one for none where no map applies to some
/// packet; or that the class is empty.
pub fn told_maps(alloc: Global, setting: &Setting, class: &str) -> Result<String> {
    let config = setting.config(alloc)?;
    let class = rule_of(alloc, &config, class)?;
    let tables = tables_of(alloc, &config)?;
    let maps = config.model().maps.as_slice();
    let products = products_of(alloc, &class, maps, tables.len())?;
    let mut lines = String::new(alloc);
    for place in first_places(alloc, tables.as_slice(), products.as_slice())? {
        put_line(&mut lines, place, maps.len())?;
    }
    if lines.is_empty() {
        lines.push_str("  empty\n")?;
    }
    Ok(lines)
}

/// The class, and behind it each map going out and coming in.
fn products_of<'a>(
    alloc: Global,
    class: &'a Rule,
    maps: &'a [Map],
    count: usize,
) -> Result<Vec<Product<'a>>, NoMemory> {
    let tables = TableSpan { first: 0, count };
    let mut products = Vec::new(alloc);
    products.push(Product {
        subject: Subject::Rule(class),
        tables,
    })?;
    for map in maps {
        for dir in [Dir::Out, Dir::In] {
            products.push(Product {
                subject: Subject::Map(map, dir),
                tables,
            })?;
        }
    }
    Ok(products)
}

/// The places behind the first product that are the first to have some packet of that product; the place behind the last is that of none.
fn first_places(
    alloc: Global,
    tables: &[List<Prefix>],
    products: &[Product<'_>],
) -> Result<Vec<usize>> {
    let count = products.len().checked_sub(1).context("no class")?;
    let mut steps = Steps::new(1_000_000_000);
    let cells = cells_of(alloc, tables, products, &mut steps)?;
    let all = Packets::new(alloc, tables, products, cells.as_slice())?;
    let packets = all.narrow(alloc, decider(0, 1, 0), &mut steps)?;
    let mut places = Vec::new(alloc);
    for place in 0..=count {
        let first = packets.narrow(alloc, decider(1, count, place), &mut steps)?;
        if first.packet(alloc, &mut steps)?.is_some() {
            places.push(place)?;
        }
    }
    Ok(places)
}

fn decider(first: usize, count: usize, place: usize) -> Decider
    requires within { place ≤ count }
    requires bounded { first + count < 2 ^ 64 }
    ensures first { result.first ≡ first }
    ensures count { result.count ≡ count }
    ensures place { result.place ≡ place }
{
    Decider {
        first,
        count,
        place,
    }
}

fn put_line(lines: &mut String, place: usize, maps: usize) -> Result<()> {
    let map = place / 2;
    if map == maps {
        write!(lines, "  none\n")?;
    } else {
        let way = if place % 2 == 0 { "out" } else { "in" };
        write!(lines, "  map {} {way}\n", map.saturating_add(1))?;
    }
    Ok(())
}
