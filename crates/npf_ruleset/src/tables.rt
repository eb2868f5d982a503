// The tables of a configuration, which rules name by their places.
ghost use Rattle.std.specs.Prelude.{◌≡◌};
ghost use Rattle.npf_model.specs.Describes.{table_has};
ghost use Rattle.npf_ruleset.specs.Tables.{entries};

use npf_table::Table;
use npf_types::Addr;
use std::sync::Arc;

/// Whether the table of this number, counted from 0, has the address; one that isn't there has none.
pub(crate) fn table_has(tables: &[Arc<Table>], number: u32, addr: Addr) -> bool
    ensures { result ≡ table_has (entries tables.now) number addr }
{
    match tables.get(number as usize) {
        Some(table) => table.contains(addr),
        None => false,
    }
}
