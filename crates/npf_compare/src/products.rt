// What the question is put together from.
ghost use Rattle.std.specs.Prelude.{◌≡◌, ◌≤◌, ◌<◌, ◌+◌, ◌++◌, ◌^◌, IfOk, OnOk, length, map};
ghost use Rattle.npf_judge.specs.Products.{entry_product};
ghost use Rattle.npf_compare.specs.Side.{AreJoined};

use crate::side::RuleSide;
use npf_judge::decider_with;
use npf_precedence::RuleEntry;
use npf_products::{Product, Subject, TableSpan};
use npf_search::Decider;
use npf_types::{List, NoMemory, Prefix};
use std::alloc::Global;

/// The tables of one configuration, and behind them those of another.
pub(crate) fn tables_of_both(
    alloc: Global,
    one: &[List<Prefix>],
    other: &[List<Prefix>],
) -> Result<Vec<List<Prefix>>, NoMemory>
    ensures { IfOk result (λ tables. tables.items ≡ one.now ++ other.now) }
{
    let mut tables = Vec::new(alloc);
    add_tables(alloc, &mut tables, one)?;
    add_tables(alloc, &mut tables, other)?;
    Ok(tables)
}

fn add_tables(
    alloc: Global,
    tables: &mut Vec<List<Prefix>>,
    added: &[List<Prefix>],
) -> Result<(), NoMemory>
    ensures { OnOk result (tables.new.items ≡ tables.old.items ++ added.now) }
{
    for table in added {
        tables.push(List::of_vec(table.as_slice().to_vec(alloc)?))?;
    }
    Ok(())
}

/// The rules of one configuration, and behind them those of another, with these tables of both.
pub(crate) fn products_of_both<'a>(
    alloc: Global,
    old: RuleSide<'a>,
    new: RuleSide<'a>,
    tables: &[List<Prefix>],
) -> Result<Vec<Product<'a>>, NoMemory>
    requires { tables.now ≡ old.tables.now ++ new.tables.now }
    ensures { IfOk result (λ products. AreJoined old.entry new.entry tables.now products.items) }
{
    let mut products = Vec::new(alloc);
    let count = old.tables.len();
    let old_span = span_from(0, count);
    let new_span = span_from(count, tables.len() - count);
    add_rules(&mut products, old_span, old.order)?;
    add_rules(&mut products, new_span, new.order)?;
    Ok(products)
}

/// So many tables from this one on.
fn span_from(first: usize, count: usize) -> TableSpan
    requires { first + count < 2 ^ 64 }
    ensures first { result.first ≡ first }
    ensures count { result.count ≡ count }
{
    TableSpan { first, count }
}

fn add_rules<'a>(
    products: &mut Vec<Product<'a>>,
    tables: TableSpan,
    order: &[RuleEntry<'a>],
) -> Result<(), NoMemory>
    ensures { OnOk result (products.new.items ≡ products.old.items ++ map (entry_product tables) order.now) }
{
    for entry in order {
        let subject = Subject::Entry(*entry);
        products.push(Product { subject, tables })?;
    }
    Ok(())
}

/// The item at this place of a list of so many, alone, or no item behind the last.
pub(crate) fn alone_at(at: usize, count: usize) -> Decider
    requires { at ≤ count }
    ensures first { result.first ≡ at }
    ensures place { result.place ≡ 0 }
    ensures one { at < count → result.count ≡ 1 }
    ensures none { count ≤ at → result.count ≡ 0 }
{
    if at < count {
        return decider_with(at, 1, 0);
    }
    decider_with(at, 0, 0)
}
