// What a question is put together from.
ghost use Rattle.std.specs.Prelude.{◌≡◌, ◌∷◌, IfOk, length, map};
ghost use Rattle.npf_judge.specs.Products.{class_product, entry_product};

use npf_model::Rule;
use npf_precedence::RuleEntry;
use npf_products::{Product, Subject, TableSpan};
use npf_types::{List, NoMemory, Prefix};
use std::alloc::Global;

/// All of these tables.
pub(crate) fn span_of(tables: &[List<Prefix>]) -> TableSpan
    ensures first { result.first ≡ 0 }
    ensures count { result.count ≡ length tables.now }
{
    TableSpan {
        first: 0,
        count: tables.len(),
    }
}

/// The class's rule, and behind it the rules of the order, of a configuration with these tables.
pub(crate) fn products_of<'a>(
    alloc: Global,
    tables: TableSpan,
    class: &'a Rule,
    order: &[RuleEntry<'a>],
) -> Result<Vec<Product<'a>>, NoMemory>
    ensures { IfOk result (λ products. products.items ≡ class_product tables class.entry ∷ map (entry_product tables) order.now) }
{
    let mut products = Vec::new(alloc);
    products.push(Product {
        subject: Subject::Rule(class),
        tables,
    })?;
    for entry in order {
        products.push(Product {
            subject: Subject::Entry(*entry),
            tables,
        })?;
    }
    Ok(products)
}
