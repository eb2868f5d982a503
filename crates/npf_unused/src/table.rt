// What is found of a table.
ghost use Rattle.std.specs.Prelude.{◌≡◌, IfOk, slice_get};
ghost use Rattle.npf_unused.specs.Unused.{finding_by, has_entries, table_finding, table_findings};

use crate::usable::{Usable, is_used};
use npf_model::Model;
use npf_types::{List, NoMemory, Prefix};
use std::alloc::Global;

/// What is found of a table.
#[derive(Clone, Copy, Debug, PartialEq, Eq)]
pub enum TableFinding {
    /// It is named, and has a block of addresses.
    Used,
    /// It is named, and has none.
    Empty,
    /// No rule and no map names it.
    Unused,
}

/// What is found of each table of a model with these tables' blocks, in the order in which the model declares them.
pub fn table_findings(
    alloc: Global,
    model: &Model,
    tables: &[List<Prefix>],
) -> Result<Vec<TableFinding>, NoMemory>
    ensures { IfOk result (λ found. found.items ≡ table_findings (record { model = model.now; tables = tables.now })) }
{
    let mut found = Vec::new(alloc);
    for number in 0..model.tables.as_slice().len() {
        found.push(table_finding(model, tables, number))?;
    }
    Ok(found)
}

/// What is found of the table of this number, counted from 0, of a model with these tables' blocks.
pub fn table_finding(model: &Model, tables: &[List<Prefix>], number: usize) -> TableFinding
    ensures { result ≡ table_finding (record { model = model.now; tables = tables.now }) number }
{
    finding_by(
        is_used(model, Usable::Table(number)),
        has_entries(tables, number),
    )
}

fn finding_by(used: bool, filled: bool) -> TableFinding
    ensures { result ≡ finding_by used filled }
{
    match (used, filled) {
        (true, true) => TableFinding::Used,
        (true, false) => TableFinding::Empty,
        (false, _) => TableFinding::Unused,
    }
}

fn has_entries(tables: &[List<Prefix>], number: usize) -> bool
    ensures { result ≡ has_entries (slice_get tables.now number) }
{
    match tables.get(number) {
        Some(entries) => !entries.as_slice().is_empty(),
        None => false,
    }
}
