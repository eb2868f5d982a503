// Whether a side of a map is a table: by what it is, or by the last definition of its variable before the map, and so on.
ghost use Rattle.std.specs.Prelude.{◌≡◌, ◌||◌, Bool, List, ℕ};
ghost use Rattle.npf_check.specs.WrittenMap.{is_one_table, is_only_table, is_table, tables_behind};
ghost use Rattle.npf_why_map.specs.Side.{is_table_if, tables_after};

use npf_syntax::{Stmt, Value, Values};

/// Where a value is a table.
#[derive(Clone, Copy, Debug, PartialEq, Eq)]
enum TableIf<'a> {
    Never,
    Always,
    /// Where the variable of this name is one.
    Variable(&'a [u8]),
}

/// Whether one of two sides is a table, behind these statements.
pub(crate) fn has_table(before: &[Stmt], left: &Value, right: &Value) -> bool
    ensures { result ≡ (is_table (tables_after before.now) left.now || is_table (tables_after before.now) right.now) }
{
    is_table(before, left) || is_table(before, right)
}

fn is_table(before: &[Stmt], value: &Value) -> bool
    ensures { result ≡ is_table (tables_after before.now) value.now }
{
    let mut rest = before;
    let mut table = table_if(value);
    'stmts: loop {
        match (table, rest.split_last()) {
            (TableIf::Variable(name), Some((stmt, front))) => {
                table = table_by(stmt, name);
                rest = front;
            }
            (TableIf::Always, _) => return true,
            _ => return false,
        }
    }
}

/// Where a variable is a table behind a statement, by what is so before it.
fn table_by<'a>(stmt: &'a Stmt, name: &'a [u8]) -> TableIf<'a>
    ensures { (known : List ℕ → Bool) → tables_behind known stmt.now name.now ≡ is_table_if known result }
{
    match stmt {
        Stmt::Define { var, values, .. } if var.name.as_slice() == name => table_if_one(values),
        _ => TableIf::Variable(name),
    }
}

fn table_if_one(values: &Values) -> TableIf<'_>
    ensures { (known : List ℕ → Bool) → is_one_table known values.now ≡ is_table_if known result }
{
    match values {
        Values::One { value, .. } => table_if(value),
        Values::List { list, .. } => table_if_only(list.values.as_slice()),
    }
}

fn table_if_only(values: &[Value]) -> TableIf<'_>
    ensures { (known : List ℕ → Bool) → is_only_table known values.now ≡ is_table_if known result }
{
    match values {
        [value] => table_if(value),
        _ => TableIf::Never,
    }
}

fn table_if(value: &Value) -> TableIf<'_>
    ensures { (known : List ℕ → Bool) → is_table known value.now ≡ is_table_if known result }
{
    match value {
        Value::Table { .. } => TableIf::Always,
        Value::Var { var, .. } => TableIf::Variable(var.name.as_slice()),
        _ => TableIf::Never,
    }
}
