// Tables that are shared by configurations.
ghost use Rattle.std.specs.Prelude.{◌≡◌, IfOk, map};
ghost use Rattle.std.specs.Arc.{arc_value};

use npf_table::Table;
use npf_types::NoMemory;
use std::alloc::Global;
use std::sync::Arc;

/// The same tables, each shared once more.
pub fn shared(alloc: Global, tables: &[Arc<Table>]) -> Result<Vec<Arc<Table>>, NoMemory>
    ensures { IfOk result (λ shared. map arc_value shared.items ≡ map arc_value tables.now) }
{
    let mut shared = Vec::with_capacity(alloc, tables.len())?;
    for table in tables {
        shared.push(Arc::try_clone(table)?)?;
    }
    Ok(shared)
}
