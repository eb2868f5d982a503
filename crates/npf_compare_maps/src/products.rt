// What the question is put together from.
ghost use Rattle.std.specs.Prelude.{◌≡◌, ◌<◌, ◌+◌, ◌^◌, ◌++◌, IfOk, OnOk, length, map};
ghost use Rattle.npf_products.specs.Product.{product_holds};
ghost use Rattle.npf_compare_maps.specs.Side.{entry_holds, map_holds, side_holds};

use crate::side::RankedConfig;
use npf_model::Map;
use npf_precedence::RuleEntry;
use npf_products::{Product, Subject, TableSpan};
use npf_types::{Dir, List, NoMemory, Prefix};
use std::alloc::Global;

/// The tables of one configuration, and behind them those of another.
pub(crate) fn joined_tables(
    alloc: Global,
    one: &[List<Prefix>],
    other: &[List<Prefix>],
) -> Result<Vec<List<Prefix>>, NoMemory>
    ensures { IfOk result (λ tables. tables.items ≡ one.now ++ other.now) }
{
    let mut tables = Vec::new(alloc);
    add_tables(alloc, &mut tables, one)?;
    add_tables(alloc, &mut tables, other)?;
    Ok(tables)
}

fn add_tables(
    alloc: Global,
    tables: &mut Vec<List<Prefix>>,
    added: &[List<Prefix>],
) -> Result<(), NoMemory>
    ensures { OnOk result (tables.new.items ≡ tables.old.items ++ added.now) }
{
    for table in added {
        tables.push(List::of_vec(table.as_slice().to_vec(alloc)?))?;
    }
    Ok(())
}

/// The tables of a configuration, behind so many others.
pub(crate) fn span_from(first: usize, own: &[List<Prefix>]) -> TableSpan
    requires { first + length own.now < 2 ^ 64 }
    ensures first { result.first ≡ first }
    ensures count { result.count ≡ length own.now }
{
    TableSpan {
        first,
        count: own.len(),
    }
}

/// Adds the rules of a configuration in their order, its maps going out, and its maps coming in.
pub(crate) fn add_products<'a>(
    products: &mut Vec<Product<'a>>,
    tables: TableSpan,
    config: &RankedConfig<'a>,
) -> Result<(), NoMemory>
    ensures { OnOk result (map product_holds products.new.items ≡ map product_holds products.old.items ++ side_holds tables config.now) }
{
    let maps = config.model.maps.as_slice();
    add_rules(products, tables, config.order)?;
    add_maps(products, tables, maps, Dir::Out)?;
    add_maps(products, tables, maps, Dir::In)?;
    Ok(())
}

fn add_rules<'a>(
    products: &mut Vec<Product<'a>>,
    tables: TableSpan,
    order: &[RuleEntry<'a>],
) -> Result<(), NoMemory>
    ensures { OnOk result (map product_holds products.new.items ≡ map product_holds products.old.items ++ map (entry_holds tables) order.now) }
{
    for entry in order {
        let subject = Subject::Entry(*entry);
        products.push(Product { subject, tables })?;
    }
    Ok(())
}

fn add_maps<'a>(
    products: &mut Vec<Product<'a>>,
    tables: TableSpan,
    maps: &'a [Map],
    dir: Dir,
) -> Result<(), NoMemory>
    ensures { OnOk result (map product_holds products.new.items ≡ map product_holds products.old.items ++ map (map_holds tables dir) maps.now) }
{
    for map in maps {
        let subject = Subject::Map(map, dir);
        products.push(Product { subject, tables })?;
    }
    Ok(())
}
