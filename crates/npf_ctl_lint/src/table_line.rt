// The lines of tables that nothing uses, and of those that are used and have no address.
ghost use Rattle.std.specs.Prelude.{◌≡◌, ◌++◌, OnOk};
ghost use Rattle.npf_ctl_lint.specs.TableLine.{found_table_line, idle_table_lines, is_idle_table, some_idle_table};

use crate::line::write_line;
use npf_model::TableDecl;
use npf_types::NoMemory;
use npf_unused::TableFinding;

/// Whether a table is unused, or used and empty.
pub(crate) fn some_idle_table(found: &[TableFinding]) -> bool
    ensures { result ≡ some_idle_table found.now }
{
    found.iter().any(|finding| is_idle_table(*finding))
}

fn is_idle_table(finding: TableFinding) -> bool
    ensures { result ≡ is_idle_table finding }
{
    match finding {
        TableFinding::Used => false,
        TableFinding::Empty | TableFinding::Unused => true,
    }
}

/// Appends the lines of all tables, of which this is found.
pub(crate) fn write_tables(
    into: &mut Vec<u8>,
    tables: &[TableDecl],
    found: &[TableFinding],
) -> Result<(), NoMemory>
    ensures { OnOk result (into.new.items ≡ into.old.items ++ idle_table_lines tables.now found.now) }
{
    for (table, finding) in tables.iter().zip(found.iter()) {
        write_table(into, table, *finding)?;
    }
    Ok(())
}

// Appends the line of a table, if something is told of it.
fn write_table(into: &mut Vec<u8>, table: &TableDecl, finding: TableFinding) -> Result<(), NoMemory>
    ensures { OnOk result (into.new.items ≡ into.old.items ++ found_table_line (table.now, finding)) }
{
    match finding {
        TableFinding::Used => Ok(()),
        TableFinding::Empty => write_line(into, "table <", table.name.as_bytes(), "> empty\n"),
        TableFinding::Unused => write_line(into, "table <", table.name.as_bytes(), "> unused\n"),
    }
}
