// Tables of addresses.
use crate::answer::Answer;
use npf_model::Kind;
use npf_table::{Table, TableFault};
use npf_types::limits::MAX_TEXT_BYTES;
use npf_types::{Addr, NoMemory, Prefix};
use std::alloc::Global;

pub fn read_table(alloc: Global, kind: Kind, file: &[u8]) -> Result<Table, TableFault> {
    if file.len() > MAX_TEXT_BYTES {
        return Err(TableFault::NoMemory);
    }
    Table::of_text(alloc, kind, file)
}

/// Whether the table has an address, and whether a copy of it has.
pub fn has(alloc: Global, table: &Option<Table>, written: &str) -> Result<Answer, NoMemory> {
    let (Some(table), Some(address)) = (table, Addr::parse_ascii(written.as_bytes())) else {
        return Ok(Answer::NoSuchRow);
    };
    let copy = table.copy(alloc)?;
    Ok(Answer::Has(table.contains(address), copy.contains(address), copy.len()))
}

/// A copy of the table with a prefix more.
pub fn add(alloc: Global, table: &Option<Table>, written: &str) -> Result<Answer, NoMemory> {
    let (Some(table), Some(prefix)) = (table, prefix_of(written)) else {
        return Ok(Answer::NoSuchRow);
    };
    let mut copy = table.copy(alloc)?;
    let changed = copy.add(prefix);
    Ok(Answer::Changed(changed.err(), copy.len()))
}

/// A copy of the table without a prefix.
pub fn remove(alloc: Global, table: &Option<Table>, written: &str) -> Result<Answer, NoMemory> {
    let (Some(table), Some(prefix)) = (table, prefix_of(written)) else {
        return Ok(Answer::NoSuchRow);
    };
    let mut copy = table.copy(alloc)?;
    let changed = copy.remove(prefix);
    Ok(Answer::Changed(changed.err(), copy.len()))
}

fn prefix_of(written: &str) -> Option<Prefix> {
    let (address, len) = written.split_once('/')?;
    Prefix::of(Addr::parse_ascii(address.as_bytes())?, len.parse().ok()?)
}
