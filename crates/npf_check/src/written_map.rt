// Which variables are tables, for the sides of maps: those whose last definition before the map is one. The tree tells it, as the model has
// a block there.
ghost use Rattle.std.specs.Prelude.{◌≡◌, ◌||◌, OnOk, List, ℕ};
ghost use Rattle.npf_check.specs.Name.{no_text};
ghost use Rattle.npf_check.specs.WrittenMap.{is_one_table, is_only_table, is_table, stands_for_table, with_definition};

use npf_syntax::{Value, Values, Var};
use npf_types::NoMemory;
use std::alloc::Global;
use std::collections::HashMap;

/// The variables so far, and whether each is a table.
#[derive(Drop)]
pub(crate) struct TableVariables<'a> {
    tables: HashMap<&'a [u8], bool>,
}

impl<'a> TableVariables<'a> {
    pub(crate) fn new(alloc: Global) -> TableVariables<'a>
        ensures { (name : List ℕ) → stands_for_table result name ≡ no_text name }
    {
        TableVariables {
            tables: HashMap::new(alloc),
        }
    }

    /// Takes a definition, which counts until the next one of its name.
    pub(crate) fn define(&mut self, var: &'a Var, values: &Values) -> Result<(), NoMemory>
        ensures { OnOk result ((name : List ℕ) → stands_for_table self.new name
            ≡ with_definition (stands_for_table self.old) var.now.name values.now name) }
    {
        let table = self.is_one_table(values);
        self.tables.insert(var.name.as_slice(), table)?;
        Ok(())
    }

    fn is_one_table(&self, values: &Values) -> bool
        ensures { result ≡ is_one_table (stands_for_table self.now) values.now }
    {
        match values {
            Values::One { value, .. } => self.is_table(value),
            Values::List { list, .. } => self.is_only_table(list.values.as_slice()),
        }
    }

    fn is_only_table(&self, values: &[Value]) -> bool
        ensures { result ≡ is_only_table (stands_for_table self.now) values.now }
    {
        match values {
            [value] => self.is_table(value),
            _ => false,
        }
    }

    /// Whether one of the values is a table.
    pub(crate) fn has_table(&self, left: &Value, right: &Value) -> bool
        ensures { result ≡ (is_table (stands_for_table self.now) left.now || is_table (stands_for_table self.now) right.now) }
    {
        self.is_table(left) || self.is_table(right)
    }

    fn is_table(&self, value: &Value) -> bool
        ensures { result ≡ is_table (stands_for_table self.now) value.now }
    {
        match value {
            Value::Table { .. } => true,
            Value::Var { var, .. } => self.stands_for_table(var.name.as_slice()),
            _ => false,
        }
    }

    fn stands_for_table(&self, name: &[u8]) -> bool
        ensures { result ≡ stands_for_table self.now name.now }
    {
        match self.tables.get(&name) {
            Some(table) => *table,
            None => false,
        }
    }
}
