// What the question is put together from.
ghost use Rattle.std.specs.Prelude.{◌≡◌, ◌<◌, IfOk, length, map};
ghost use Rattle.npf_judge.specs.Products.{entry_product};

use npf_precedence::RuleEntry;
use npf_products::{Product, Subject, TableSpan};
use npf_search::Decider;
use npf_types::{List, NoMemory, Prefix};
use std::alloc::Global;

/// All of these tables.
pub fn span_of(tables: &[List<Prefix>]) -> TableSpan
    ensures first { result.first ≡ 0 }
    ensures count { result.count ≡ length tables.now }
{
    TableSpan {
        first: 0,
        count: tables.len(),
    }
}

/// The rules of the order, of a configuration with these tables.
pub fn products_of<'a>(
    alloc: Global,
    tables: TableSpan,
    order: &[RuleEntry<'a>],
) -> Result<Vec<Product<'a>>, NoMemory>
    ensures { IfOk result (λ products. products.items ≡ map (entry_product tables) order.now) }
{
    let mut products = Vec::new(alloc);
    for entry in order {
        products.push(Product {
            subject: Subject::Entry(*entry),
            tables,
        })?;
    }
    Ok(products)
}

/// The item at this place of a list of so many, alone.
pub fn alone(count: usize, at: usize) -> Decider
    requires { at < count }
    ensures first { result.first ≡ at }
    ensures count { result.count ≡ 1 }
    ensures place { result.place ≡ 0 }
{
    Decider {
        first: at,
        count: 1,
        place: 0,
    }
}
