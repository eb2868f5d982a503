// The tables of a configuration as blocks of addresses.
ghost use Rattle.std.specs.Prelude.{◌≡◌, IfOk};
ghost use Rattle.npf_ruleset.specs.Tables.{entries};

use npf_ruleset::Config;
use npf_types::{List, NoMemory, Prefix};
use std::alloc::Global;

/// The entries of each table, in the order in which the model declares them.
pub fn tables_of(alloc: Global, config: &Config) -> Result<Vec<List<Prefix>>, NoMemory>
    ensures { IfOk result (λ made. made.items ≡ entries config.now.tables.items) }
{
    let mut made = Vec::new(alloc);
    for table in config.tables() {
        made.push(List::of_vec(table.to_vec(alloc)?))?;
    }
    Ok(made)
}
