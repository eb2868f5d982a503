// The question.
ghost use Rattle.std.specs.Prelude.{◌≡◌, ◌≤◌, ◌<◌, ℕ, IfOk, IsErrOf, length};
ghost use Rattle.npf_steps.specs.Spent.{IsSpent};
ghost use Rattle.npf_reach.specs.Kinds.{AreKindsOf};
ghost use Rattle.npf_lint.specs.Finding.{AreFindings};
ghost use Rattle.npf_judge.specs.Place.{HasRulePlaces};
ghost use Rattle.npf_lint.specs.Order.{AreRuleProducts, HasFindingOf};

use crate::found::RuleFinding;
use crate::order::RuleOrder;
use crate::products::{products_of, span_of};
use npf_model::Model;
use npf_precedence::{RuleEntry, each_rule_once, first_match_decides, in_order};
use npf_products::Product;
use npf_reach::{KindCells, Packets, cells_of};
use npf_steps::{Steps, Stopped};
use npf_types::{List, Prefix};
use std::alloc::Global;

/// The rules of a model in their order of precedence.
#[derive(Clone, Copy)]
struct ModelOrder<'a> {
    model: &'a Model,
    order: &'a [RuleEntry<'a>],
}

/// Whether some packet has each rule of a configuration for its answer, by the rules' places in the order of inspection. The tables are those of the
/// configuration, in the order in which the model declares them.
///
/// # Errors
/// `Stopped::Spent` where the steps don't suffice, and want of memory.
pub fn lint(
    alloc: Global,
    model: &Model,
    tables: &[List<Prefix>],
    steps: &mut Steps,
) -> Result<Vec<RuleFinding>, Stopped>
    ensures findings { IfOk result (λ findings. AreFindings (record { model = model.now; tables = tables.now }) findings.items) }
    ensures spent { IsErrOf result Stopped.Spent → IsSpent steps.new }
    ensures most { steps.new.most ≡ steps.old.most }
    ensures rises { steps.old.taken ≤ steps.new.taken }
{
    let groups = model.groups.as_slice();
    let entries = in_order(alloc, groups)?;
    first_match_decides();
    each_rule_once();
    let findings = lint_order(alloc, model, tables, entries.as_slice(), steps)?;
    Ok(findings)
}

/// The same of rules in their order of precedence, none of whose places is past the last.
fn lint_order<'a>(
    alloc: Global,
    model: &'a Model,
    tables: &'a [List<Prefix>],
    order: &'a [RuleEntry<'a>],
    steps: &mut Steps,
) -> Result<Vec<RuleFinding>, Stopped>
    requires { HasRulePlaces model.now order.now }
    ensures count { IfOk result (λ findings. length findings.items ≡ length order.now) }
    ensures each { IfOk result (λ findings. (at : ℕ) → at < length order.now → HasFindingOf model.now tables.now order.now findings.items at) }
    ensures spent { IsErrOf result Stopped.Spent → IsSpent steps.new }
    ensures most { steps.new.most ≡ steps.old.most }
    ensures rises { steps.old.taken ≤ steps.new.taken }
{
    let span = span_of(tables);
    let products = products_of(alloc, span, order)?;
    let cells = cells_of(alloc, tables, products.as_slice(), steps)?;
    let products = products.as_slice();
    let rules = ModelOrder { model, order };
    lint_cells(alloc, tables, products, cells.as_slice(), rules, steps)
}

/// The same of products and their boxes.
fn lint_cells<'a>(
    alloc: Global,
    tables: &'a [List<Prefix>],
    products: &'a [Product<'a>],
    cells: &'a [KindCells],
    rules: ModelOrder<'a>,
    steps: &mut Steps,
) -> Result<Vec<RuleFinding>, Stopped>
    requires kinds { AreKindsOf tables.now products.now cells.now }
    requires products { AreRuleProducts tables.now rules.order.now products.now }
    requires places { HasRulePlaces rules.model.now rules.order.now }
    ensures count { IfOk result (λ findings. length findings.items ≡ length rules.entry.order.now) }
    ensures each { IfOk result (λ findings. (at : ℕ) → at < length rules.entry.order.now → HasFindingOf rules.entry.model.now tables.now rules.entry.order.now findings.items at) }
    ensures spent { IsErrOf result Stopped.Spent → IsSpent steps.new }
    ensures most { steps.new.most ≡ steps.old.most }
    ensures rises { steps.old.taken ≤ steps.new.taken }
{
    let packets = Packets::new(alloc, tables, products, cells)?;
    let all = RuleOrder {
        model: rules.model,
        order: rules.order,
        packets,
    };
    let findings = all.findings(alloc, steps)?;
    Ok(findings)
}
