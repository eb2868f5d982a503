// The entries of a table added and taken out.
ghost use Rattle.std.specs.Prelude.{◌≡◌, ◌≢◌, ◌<◌, ℕ, Ok, IfOk, IfErr, length, map, set};
ghost use Rattle.std.specs.Arc.{arc_value};
ghost use Rattle.std.specs.List.{AllPairs};
ghost use Rattle.npf_table.specs.Table.{prefixes};
ghost use Rattle.npf_ruleset.specs.Configuration.{configuration, programs};
ghost use Rattle.npf_ruleset.specs.Tables.{entries};
ghost use Rattle.npf_config.specs.Loaded.{HasNextIds, IsLoaded};
ghost use Rattle.npf_config.specs.Tables.{entry_count, table_kinds};
ghost use Rattle.npf_config_changes.specs.Entries.{AddsEntry, RemovesEntry, beginning};
ghost use Rattle.npf_config_changes.specs.Told.{EndsUnlessMemory, told_count};

use crate::fault::ChangeFault;
use crate::ruleset::table_place;
use crate::shared::shared;
use npf_faults::{Excess, Fault};
use npf_ruleset::Config;
use npf_table::Table;
use npf_types::limits::MAX_TABLE_ENTRIES;
use npf_types::{Name, NoMemory, Prefix, Span};
use std::alloc::Global;
use std::sync::Arc;

/// The configuration in which the table of this name has the prefix too. Refused, in this order: `UnknownTable`; `Table` with
/// `ReadOnly`, `WrongKind` or `Present`, as the table refuses it; `Conf` with the entries of all tables, where they would pass
/// `MAX_TABLE_ENTRIES` (49); or for want of memory. A table's kind is its own, which in a loaded
/// configuration is the declared one.
pub fn table_add(
    alloc: Global,
    config: &Config,
    name: Name,
    prefix: Prefix,
) -> Result<Config, ChangeFault>
    ensures ok { IfOk result (λ next.
        AddsEntry (table_kinds config.now.tables.items) (configuration config.now) name prefix (Ok (configuration next))) }
    ensures err { IfErr result (EndsUnlessMemory
        (AddsEntry (table_kinds config.now.tables.items) (configuration config.now) name prefix)) }
    ensures loaded { IsLoaded config.now → IfOk result IsLoaded }
    ensures ids { (most : ℕ) → HasNextIds most config.now.model → IfOk result (λ next. HasNextIds most next.model) }
{
    let Some(at) = table_place(config.model().tables.as_slice(), &name) else {
        return Err(ChangeFault::UnknownTable);
    };
    let mut table = config.tables()[at].copy(alloc)?;
    table.add(prefix)?;
    each_once(&table);
    let count = entry_count(config.tables()).saturating_add(1);
    if count > MAX_TABLE_ENTRIES as u64 {
        let fault = Fault::TooMany(Excess::Entries, count);
        return Err(ChangeFault::at(beginning(), fault));
    }
    Ok(with_table(alloc, config, at, table)?)
}

/// The configuration in which the table of this name hasn't the prefix. Refused, in this order: `UnknownTable`; `Table` with
/// `ReadOnly`, `WrongKind` or `Absent`, as the table refuses it; or for want of memory.
pub fn table_rem(
    alloc: Global,
    config: &Config,
    name: Name,
    prefix: Prefix,
) -> Result<Config, ChangeFault>
    ensures ok { IfOk result (λ next.
        RemovesEntry (table_kinds config.now.tables.items) (configuration config.now) name prefix (Ok (configuration next))) }
    ensures err { IfErr result (EndsUnlessMemory
        (RemovesEntry (table_kinds config.now.tables.items) (configuration config.now) name prefix)) }
    ensures loaded { IsLoaded config.now → IfOk result IsLoaded }
    ensures ids { (most : ℕ) → HasNextIds most config.now.model → IfOk result (λ next. HasNextIds most next.model) }
{
    let Some(at) = table_place(config.model().tables.as_slice(), &name) else {
        return Err(ChangeFault::UnknownTable);
    };
    let mut table = config.tables()[at].copy(alloc)?;
    table.remove(prefix)?;
    each_once(&table);
    Ok(with_table(alloc, config, at, table)?)
}

/// Where a text begins, at which a change is told that has no place of its own.
fn beginning() -> Span
    ensures { result ≡ beginning }
{
    Span {
        line: 1,
        col: 1,
        at: 0,
        len: 0,
    }
}

/// How many entries tables have together. A count past 64 bits stands still at their end.
fn entry_count(tables: &[Arc<Table>]) -> u64
    ensures { result ≡ told_count (entry_count (entries tables.now)) }
{
    let mut count: u64 = 0;
    for table in tables {
        count = count.saturating_add(table.len());
    }
    count
}

// No entry of a table is there twice, as its count says.
fn each_once(table: &Table)
    ensures { AllPairs (λ p q. p ≢ q) (prefixes table.now) }
{
    table.len();
}

/// The configuration with this table at a place in range. It shares all other tables with the old one.
fn with_table(alloc: Global, config: &Config, at: usize, table: Table) -> Result<Config, NoMemory>
    requires { at < length config.now.tables.items }
    ensures model { IfOk result (λ next. next.model ≡ config.now.model) }
    ensures tables { IfOk result (λ next. map arc_value next.tables.items ≡ set (map arc_value config.now.tables.items) at table) }
    ensures programs { IfOk result (λ next. programs next ≡ programs config.now) }
{
    let mut tables = shared(alloc, config.tables())?;
    tables[at] = Arc::new(alloc, table)?;
    config.with_tables(alloc, tables)
}
