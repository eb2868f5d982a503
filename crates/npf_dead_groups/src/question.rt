// The question.
ghost use Rattle.std.specs.Prelude.{◌≡◌, ◌≤◌, ℕ, IfOk, IfSome, IsErrOf, length, slice_get};
ghost use Rattle.npf_steps.specs.Spent.{IsSpent};
ghost use Rattle.npf_reach.specs.Kinds.{AreKindsOf};
ghost use Rattle.npf_lint.specs.Order.{AreRuleProducts};
ghost use Rattle.npf_dead_groups.specs.Comes.{AreGroupFindings, IsGroupFinding};
ghost use Rattle.npf_dead_groups.specs.Entries.{AreGroupedEntries};

use crate::entries::{entries_of, every_packet};
use crate::order::{GroupOrder, GroupRules};
use npf_lint::{products_of, span_of};
use npf_model::Model;
use npf_products::{CellPacket, Product};
use npf_reach::{KindCells, Packets, cells_of};
use npf_steps::{Steps, Stopped};
use npf_types::{List, Prefix};
use std::alloc::Global;

/// For each group of a model, in order, a packet that comes to it: the group applies to the packet, and no group in front of it answers. None where there
/// is no such packet. The tables are those of the configuration, in the order in which the model declares them.
///
/// # Errors
/// `Stopped::Spent` where the steps don't suffice, and want of memory.
pub fn groups_reached(
    alloc: Global,
    model: &Model,
    tables: &[List<Prefix>],
    steps: &mut Steps,
) -> Result<Vec<Option<CellPacket>>, Stopped>
    ensures findings { IfOk result (λ found. AreGroupFindings (record { model = model.now; tables = tables.now }) found.items) }
    ensures spent { IsErrOf result Stopped.Spent → IsSpent steps.new }
    ensures most { steps.new.most ≡ steps.old.most }
    ensures rises { steps.old.taken ≤ steps.new.taken }
{
    let groups = model.groups.as_slice();
    let every = every_packet(alloc);
    let entries = entries_of(alloc, groups, &every)?;
    let entries = entries.as_slice();
    let rules = GroupRules { groups, entries };
    let found = reached_in(alloc, tables, rules, steps)?;
    Ok(found)
}

/// The same of groups with their rules in the order of precedence.
fn reached_in<'a>(
    alloc: Global,
    tables: &'a [List<Prefix>],
    rules: GroupRules<'a>,
    steps: &mut Steps,
) -> Result<Vec<Option<CellPacket>>, Stopped>
    requires { AreGroupedEntries rules.groups.now rules.entries.now }
    ensures count { IfOk result (λ found. length found.items ≡ length rules.entry.groups.now) }
    ensures each { IfOk result (λ found. (place : ℕ) → IfSome (slice_get found.items place) (IsGroupFinding tables.now rules.entry.groups.now place)) }
    ensures spent { IsErrOf result Stopped.Spent → IsSpent steps.new }
    ensures most { steps.new.most ≡ steps.old.most }
    ensures rises { steps.old.taken ≤ steps.new.taken }
{
    let span = span_of(tables);
    let products = products_of(alloc, span, rules.entries)?;
    let cells = cells_of(alloc, tables, products.as_slice(), steps)?;
    let products = products.as_slice();
    reached_cells(alloc, tables, products, cells.as_slice(), rules, steps)
}

/// The same of products and their boxes.
fn reached_cells<'a>(
    alloc: Global,
    tables: &'a [List<Prefix>],
    products: &'a [Product<'a>],
    cells: &'a [KindCells],
    rules: GroupRules<'a>,
    steps: &mut Steps,
) -> Result<Vec<Option<CellPacket>>, Stopped>
    requires kinds { AreKindsOf tables.now products.now cells.now }
    requires products { AreRuleProducts tables.now rules.entries.now products.now }
    requires entries { AreGroupedEntries rules.groups.now rules.entries.now }
    ensures spent { IsErrOf result Stopped.Spent → IsSpent steps.new }
    ensures most { steps.new.most ≡ steps.old.most }
    ensures rises { steps.old.taken ≤ steps.new.taken }
    ensures count { IfOk result (λ found. length found.items ≡ length rules.entry.groups.now) }
    ensures each { IfOk result (λ found. (place : ℕ) → IfSome (slice_get found.items place) (IsGroupFinding tables.now rules.entry.groups.now place)) }
{
    let packets = Packets::new(alloc, tables, products, cells)?;
    let all = GroupOrder { rules, packets };
    let found = all.reached(alloc, steps)?;
    Ok(found)
}
