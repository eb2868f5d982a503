// The tables of a configuration, read from their files. Each table's own entries count once: what stands on two lines of a file is one
// entry, and what two tables have is two.
ghost use Rattle.std.specs.Prelude.{◌≡◌, ◌≢◌, ◌≤◌, ◌+◌, length, IfOk, IfErr, OnOk, All};
ghost use Rattle.std.specs.List.{AllPairs};
ghost use Rattle.npf_outside.specs.Files.{SameReadFaults};
ghost use Rattle.npf_table.specs.Table.{prefixes};
ghost use Rattle.npf_ruleset.specs.Tables.{entries};
ghost use Rattle.npf_config.specs.Reading.{OnlyReads};
ghost use Rattle.npf_config.specs.Tables.{AreFirstTables, HasTextName, HaveKinds, IsTableText, file_place};
ghost use Rattle.npf_config.specs.TableSteps.{IsReadTable, StopsAtLimit, StopsAtTable, StopsAtTables, StopsReading};

use crate::fault::LoadFault;
use npf_faults::{Excess, Fault};
use npf_model::TableDecl;
use npf_outside::{FileFault, Files};
use npf_table::{Table, TableFault};
use npf_types::limits::{MAX_TABLE_ENTRIES, MAX_TEXT_BYTES};
use npf_types::{List, Span};
use std::alloc::Global;
use std::sync::Arc;

/// The declared tables, each with the entries of its file. Refused for the first table whose file isn't read or has a bad line,
/// or with which all tables have more entries than `MAX_TABLE_ENTRIES`.
pub(crate) fn read_tables<F: Files>(
    alloc: Global,
    decls: &[TableDecl],
    files: &mut F,
) -> Result<Vec<Arc<Table>>, LoadFault>
    requires { All HasTextName decls.now }
    ensures ok { IfOk result (λ tables. AreFirstTables (F.moment files.old).contents decls.now (entries tables.items)) }
    ensures kinds { IfOk result (λ tables. HaveKinds decls.now tables.items) }
    ensures refuses { IfErr result (StopsAtTables (F.moment files.old) (F.moment files.new) decls.now) }
    ensures reads { OnlyReads (F.moment files.old) (F.moment files.new) }
    ensures faultless { OnOk result (SameReadFaults (F.moment files.old) (F.moment files.new)) }
{
    let mut tables = Vec::new(alloc);
    let mut count = 0;
    for decl in decls {
        let table = read_table(alloc, decl, files)?;
        count = count_with(count, &table, decl)?;
        tables.push(Arc::new(alloc, table)?)?;
    }
    Ok(tables)
}

fn read_table<F: Files>(alloc: Global, decl: &TableDecl, files: &mut F) -> Result<Table, LoadFault>
    requires { HasTextName decl.now }
    ensures ok { IfOk result (IsReadTable (F.moment files.old).contents decl.now) }
    ensures refuses { IfErr result (StopsAtTable (F.moment files.old) (F.moment files.new) decl.now) }
    ensures reads { OnlyReads (F.moment files.old) (F.moment files.new) }
    ensures faultless { OnOk result (SameReadFaults (F.moment files.old) (F.moment files.new)) }
{
    let text = read_file(alloc, decl, files)?;
    match Table::of_text(alloc, decl.kind, text.as_slice()) {
        Ok(table) => Ok(table),
        Err(TableFault::BadLine(line)) => Err(LoadFault::at(
            file_place(decl),
            Fault::BadTableFile(line),
        )),
        Err(_) => Err(LoadFault::NoMemory),
    }
}

/// What a table's entries are read from: its file, or nothing where it has none.
fn read_file<F: Files>(alloc: Global, decl: &TableDecl, files: &mut F) -> Result<Vec<u8>, LoadFault>
    requires { HasTextName decl.now }
    ensures told { IfOk result (λ text. IsTableText (F.moment files.old).contents decl.now.file text.items) }
    ensures fits { IfOk result (λ text. length text.items ≤ MAX_TEXT_BYTES) }
    ensures refuses { IfErr result (StopsReading (F.moment files.old) (F.moment files.new) decl.now) }
    ensures reads { OnlyReads (F.moment files.old) (F.moment files.new) }
    ensures faultless { OnOk result (SameReadFaults (F.moment files.old) (F.moment files.new)) }
{
    let Some(name) = &decl.file else {
        return Ok(Vec::new(alloc));
    };
    let Ok(text) = str::from_utf8(name.as_slice()) else {
        unreachable!()
    };
    match files.read(alloc, text, MAX_TEXT_BYTES as u64) {
        Ok(text) => Ok(text),
        Err(FileFault::NoMemory) => Err(LoadFault::NoMemory),
        Err(fault) => Err(LoadFault::File {
            span: file_place(decl),
            file: List::of_vec(name.as_slice().to_vec(alloc)?),
            fault,
        }),
    }
}

/// Where the table's file is named.
fn file_place(decl: &TableDecl) -> Span
    ensures { result ≡ file_place decl.now }
{
    decl.file_span.unwrap_or(decl.span)
}

/// How many entries there are with those of this table, where so many stood before it.
fn count_with(before: u64, table: &Table, decl: &TableDecl) -> Result<u64, LoadFault>
    requires { before ≤ MAX_TABLE_ENTRIES }
    ensures sum { IfOk result (λ count. count ≡ before + length (prefixes table.now)) }
    ensures few { IfOk result (λ count. count ≤ MAX_TABLE_ENTRIES) }
    ensures once { AllPairs (λ p q. p ≢ q) (prefixes table.now) }
    ensures refuses { IfErr result (StopsAtLimit before (prefixes table.now) decl.now) }
{
    let count = before.saturating_add(table.len());
    if count > MAX_TABLE_ENTRIES as u64 {
        let fault = Fault::TooMany(Excess::Entries, count);
        return Err(LoadFault::at(decl.span, fault));
    }
    Ok(count)
}
