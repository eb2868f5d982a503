// A table, its file, and its changes. `copy` takes an allocator as every copy here does; the copy is made with the table's own.
ghost use Rattle.std.specs.Prelude.{◌≡◌, ◌≢◌, ◌≤◌, ◌+◌, ◌↔◌, ℕ, IsTrue, IfOk, IfErr, OnOk, OnErr, Contains, length};
ghost use Rattle.std.specs.List.{AllPairs};
ghost use Rattle.npf_types.specs.Prefix.{Covers};
ghost use Rattle.npf_lpm.specs.Lpm.{Gains, Loses};
ghost use Rattle.npf_table.specs.Table.{kind_of, prefixes, IsTableOf, RefusesFile, RefusesChange, RefusesAddition, RefusesRemoval, MayChange};

use crate::fault::TableFault;
use crate::line::{Line, is_host, read_line};
use npf_lpm::Lpm;
use npf_model::Kind;
use npf_types::limits::MAX_TEXT_BYTES;
use npf_types::{Addr, NoMemory, Prefix};
use std::alloc::Global;

/// An address table of npf.conf(5): a kind, and prefixes none of which is there twice.
#[derive(Drop)]
pub struct Table {
    kind: Kind,
    prefixes: Lpm,
}

impl Table {
    /// Reads the text of a table file, of at most `MAX_TEXT_BYTES` bytes. A prefix that stands on several lines counts once.
    /// Refused for its first bad line, counted from 1, or for want of memory.
    pub fn of_text(alloc: Global, kind: Kind, text: &[u8]) -> Result<Table, TableFault>
        requires { length text.now ≤ MAX_TEXT_BYTES }
        ensures ok { IfOk result (IsTableOf kind text.now) }
        ensures err { IfErr result (RefusesFile kind text.now) }
    {
        let mut prefixes = Vec::new(alloc);
        let mut number = 0u32;
        for line in text.split(|byte| *byte == b'\n') {
            number += 1;
            match read_line(kind, line) {
                Line::Blank => {}
                Line::Entry(prefix) => append(&mut prefixes, prefix)?,
                Line::Bad => return Err(TableFault::BadLine(number)),
            }
        }
        Ok(Table {
            kind,
            prefixes: Lpm::of_prefixes(alloc, &prefixes)?,
        })
    }

    /// The prefixes of the table, in no order that means anything.
    pub fn to_vec(&self, alloc: Global) -> Result<Vec<Prefix>, NoMemory>
        ensures { IfOk result (λ made. made.items ≡ prefixes self.now) }
    {
        self.prefixes.to_vec(alloc)
    }

    /// Whether some prefix of the table has the address.
    pub fn contains(&self, addr: Addr) -> bool
        ensures { IsTrue result ↔ Covers (prefixes self.now) addr }
    {
        self.prefixes.contains(addr)
    }

    /// How many prefixes the table has. None is there twice.
    pub fn len(&self) -> u64
        ensures value { result ≡ length (prefixes self.now) }
        ensures once { AllPairs (λ p q. p ≢ q) (prefixes self.now) }
    {
        self.prefixes.len()
    }

    /// An equal table.
    pub fn copy(&self, _alloc: Global) -> Result<Table, NoMemory>
        ensures { IfOk result (λ copy. copy ≡ self.now) }
    {
        Ok(Table {
            kind: self.kind,
            prefixes: self.prefixes.copy()?,
        })
    }

    /// Adds a prefix. Refused, in this order: `ReadOnly` for a const table, `WrongKind` for an ipset table and a prefix
    /// that isn't a single address, `Present` where it is there; or for want of memory.
    pub fn add(&mut self, prefix: Prefix) -> Result<(), TableFault>
        ensures may { OnOk result (MayChange (kind_of self.old) prefix) }
        ensures was_absent { OnOk result (¬ Contains (prefixes self.old) prefix) }
        ensures adds { OnOk result (Gains (prefixes self.old) (prefixes self.new) prefix) }
        ensures len { OnOk result (length (prefixes self.new) ≡ length (prefixes self.old) + 1) }
        ensures refused { IfErr result (RefusesAddition self.old prefix) }
        ensures err { OnErr result (self.new ≡ self.old) }
        ensures kind { kind_of self.new ≡ kind_of self.old }
    {
        may_change(self.kind, &prefix)?;
        if self.prefixes.insert(prefix)? {
            return Ok(());
        }
        Err(TableFault::Present)
    }

    /// Takes a prefix out. Refused, in this order: `ReadOnly` for a const table, `WrongKind` for an ipset table and a
    /// prefix that isn't a single address, `Absent` where it isn't there.
    pub fn remove(&mut self, prefix: Prefix) -> Result<(), TableFault>
        ensures may { OnOk result (MayChange (kind_of self.old) prefix) }
        ensures was_there { OnOk result (Contains (prefixes self.old) prefix) }
        ensures loses { OnOk result (Loses (prefixes self.old) (prefixes self.new) prefix) }
        ensures len { OnOk result (length (prefixes self.new) + 1 ≡ length (prefixes self.old)) }
        ensures refused { IfErr result (RefusesRemoval self.old prefix) }
        ensures err { OnErr result (self.new ≡ self.old) }
        ensures kind { kind_of self.new ≡ kind_of self.old }
    {
        may_change(self.kind, &prefix)?;
        if self.prefixes.remove(prefix) {
            return Ok(());
        }
        Err(TableFault::Absent)
    }
}

// Puts the prefix behind the others.
fn append(prefixes: &mut Vec<Prefix>, prefix: Prefix) -> Result<(), NoMemory>
    ensures { OnOk result (Gains prefixes.old.items prefixes.new.items prefix) }
{
    Ok(prefixes.push(prefix)?)
}

// Whether a table of this kind may be changed by the prefix.
fn may_change(kind: Kind, prefix: &Prefix) -> Result<(), TableFault>
    ensures may { OnOk result (MayChange kind prefix.now) }
    ensures refused { IfErr result (RefusesChange kind prefix.now) }
{
    match kind {
        Kind::Const => Err(TableFault::ReadOnly),
        Kind::Ipset => {
            if is_host(prefix) {
                return Ok(());
            }
            Err(TableFault::WrongKind)
        }
        Kind::Lpm => Ok(()),
    }
}
