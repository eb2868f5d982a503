// The question.
ghost use Rattle.std.specs.Prelude.{◌≡◌, ◌≤◌, ◌<◌, All, IfOk, IsErrOf, length};
ghost use Rattle.npf_steps.specs.Spent.{IsSpent};
ghost use Rattle.npf_judge.specs.Deciders.{IsClassAnswer};
ghost use Rattle.npf_reach.specs.Kinds.{AreKindsOf};
ghost use Rattle.npf_judge.specs.Order.{IsOrderAnswer};
ghost use Rattle.npf_judge.specs.Products.{AreAskedProducts};

use crate::deciders::Deciders;
use crate::products::{products_of, span_of};
use crate::question::{ClassOrder, Question, decider_with};
use npf_model::{Model, Rule};
use npf_precedence::{RuleEntry, each_rule_once, first_match_decides, in_order};
use npf_products::Product;
use npf_reach::{KindCells, Packets, cells_of};
use npf_steps::{Steps, Stopped};
use npf_types::{List, Prefix};
use std::alloc::Global;

/// Which rules of a configuration decide on packets of a class, which are those that the class's rule describes. The tables are those of the
/// configuration, in the order in which the model declares them.
///
/// # Errors
/// `Stopped::Spent` where the steps don't suffice, and want of memory.
pub fn ask(
    alloc: Global,
    model: &Model,
    tables: &[List<Prefix>],
    class: &Rule,
    steps: &mut Steps,
) -> Result<Deciders, Stopped>
    ensures answer { IfOk result (IsClassAnswer (record { model = model.now; tables = tables.now }) class.now) }
    ensures spent { IsErrOf result Stopped.Spent → IsSpent steps.new }
    ensures most { steps.new.most ≡ steps.old.most }
    ensures rises { steps.old.taken ≤ steps.new.taken }
{
    let groups = model.groups.as_slice();
    let entries = in_order(alloc, groups)?;
    first_match_decides();
    each_rule_once();
    let answer = ask_order(alloc, tables, class, entries.as_slice(), steps)?;
    Ok(answer)
}

/// The same of rules in their order of precedence, none of whose places is past the last.
fn ask_order<'a>(
    alloc: Global,
    tables: &'a [List<Prefix>],
    class: &'a Rule,
    order: &'a [RuleEntry<'a>],
    steps: &mut Steps,
) -> Result<Deciders, Stopped>
    requires { All (λ entry. entry.place < length order.now) order.now }
    ensures answer { IfOk result (IsOrderAnswer tables.now class.now order.now) }
    ensures spent { IsErrOf result Stopped.Spent → IsSpent steps.new }
    ensures most { steps.new.most ≡ steps.old.most }
    ensures rises { steps.old.taken ≤ steps.new.taken }
{
    let span = span_of(tables);
    let products = products_of(alloc, span, class, order)?;
    let cells = cells_of(alloc, tables, products.as_slice(), steps)?;
    let asked = ClassOrder { class, order };
    let products = products.as_slice();
    ask_cells(alloc, tables, products, cells.as_slice(), &asked, steps)
}

/// The same of products and their boxes.
fn ask_cells<'a>(
    alloc: Global,
    tables: &'a [List<Prefix>],
    products: &'a [Product<'a>],
    cells: &'a [KindCells],
    asked: &ClassOrder<'a>,
    steps: &mut Steps,
) -> Result<Deciders, Stopped>
    requires kinds { AreKindsOf tables.now products.now cells.now }
    requires products { AreAskedProducts tables.now asked.now.class asked.now.order.now products.now }
    requires places { All (λ entry. entry.place < length asked.now.order.now) asked.now.order.now }
    ensures answer { IfOk result (IsOrderAnswer tables.now asked.now.class.now asked.now.order.now) }
    ensures spent { IsErrOf result Stopped.Spent → IsSpent steps.new }
    ensures most { steps.new.most ≡ steps.old.most }
    ensures rises { steps.old.taken ≤ steps.new.taken }
{
    let all = Packets::new(alloc, tables, products, cells)?;
    let place = decider_with(0, 1, 0);
    let packets = all.narrow(alloc, place, steps)?;
    let question = Question {
        class: asked.class,
        order: asked.order,
        packets,
    };
    let rules = question.rules(alloc, steps)?;
    let none = question.decided(alloc, asked.order.len(), steps)?;
    Ok(Deciders { rules, none })
}
