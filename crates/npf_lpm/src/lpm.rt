// The table of both families.
//
// Contracts see a list of prefixes whose order means nothing. A new prefix alone can run out of memory, and leaves the table as it was; a
// removal keeps the index of a table that has become small, which is right and goes with the table.
ghost use Rattle.std.specs.Prelude.{◌≡◌, ◌≢◌, ◌≤◌, ◌+◌, ◌<◌, ◌++◌, ◌↔◌, ℕ, [], Contains, IsTrue, IfOk, OnOk, OnErr, length, map, if◌then◌else◌, true, false};
ghost use Rattle.std.specs.Bool.{OnFalse};
ghost use Rattle.std.specs.List.{AllPairs, filter};
ghost use Rattle.npf_types.specs.declared.prefix.Prefix.{Prefix};
ghost use Rattle.npf_types.specs.Prefix.{Covers};
ghost use Rattle.npf_lpm.specs.Blocks.{Inserts, Removes};
ghost use Rattle.npf_lpm.specs.Families.{aligned_block, is_narrow, prefix_of};
ghost use Rattle.npf_lpm.specs.Lpm.{Gains, Loses};

use crate::aligned::{Aligned, aligned_of, narrow_prefix, number_of, wide_prefix};
use crate::blocks::Blocks;
use npf_types::{Addr, NoMemory, Prefix};
use std::alloc::Global;
use std::marker::Model;

/// A set of prefixes of both families.
#[derive(Drop)]
pub struct Lpm {
    v4: Blocks,
    v6: Blocks,
}

impl Model for Lpm {
    ghost use Rattle.std.specs.Prelude.{List};
    ghost use Rattle.npf_types.specs.declared.prefix.Prefix.{Prefix};
    ghost use Rattle.npf_lpm.specs.Families.{AreFamilies, both};

    ghost Value = { List Prefix };

    ghost view = { λ lpm. both lpm.v4 lpm.v6 };

    ghost invariant = { λ lpm. AreFamilies lpm.v4 lpm.v6 };
}

impl Lpm {
    /// The empty table. It takes no memory yet.
    pub fn new(alloc: Global) -> Lpm
        ensures { result ≡ [] }
    {
        Lpm {
            v4: Blocks::new(alloc),
            v6: Blocks::new(alloc),
        }
    }

    /// The table of these prefixes, which may stand in any order and several times.
    pub fn of_prefixes(alloc: Global, prefixes: &[Prefix]) -> Result<Lpm, NoMemory>
        ensures { IfOk result
            (λ table. (prefix : Prefix) → Contains table prefix ↔ Contains prefixes.now prefix) }
    {
        Ok(Lpm {
            v4: Blocks::of_blocks(alloc, narrow_blocks(alloc, prefixes)?)?,
            v6: Blocks::of_blocks(alloc, wide_blocks(alloc, prefixes)?)?,
        })
    }

    /// How many prefixes there are. None is there twice.
    pub fn len(&self) -> u64
        ensures value { result ≡ length self.now }
        ensures once { AllPairs (λ p q. p ≢ q) self.now }
    {
        self.v4.len() as u64 + self.v6.len() as u64
    }

    /// The prefixes, in no order that means anything.
    pub fn to_vec(&self, alloc: Global) -> Result<Vec<Prefix>, NoMemory>
        ensures { IfOk result (λ prefixes. prefixes.items ≡ self.now) }
    {
        let mut prefixes = narrow_prefixes(alloc, self.v4.to_vec(alloc)?.as_slice())?;
        let wide = wide_prefixes(alloc, self.v6.to_vec(alloc)?.as_slice())?;
        prefixes.extend_from_slice(wide.as_slice())?;
        Ok(prefixes)
    }

    /// Whether some prefix has the address.
    pub fn contains(&self, addr: Addr) -> bool
        ensures { IsTrue result ↔ Covers self.now addr }
    {
        match addr {
            Addr::V4(_) => self.v4.contains(number_of(addr)),
            Addr::V6(_) => self.v6.contains(number_of(addr)),
        }
    }

    /// Adds a prefix. False exactly where it is there already.
    pub fn insert(&mut self, prefix: Prefix) -> Result<bool, NoMemory>
        ensures added { IfOk result (λ added. IsTrue added ↔ ¬ Contains self.old prefix) }
        ensures ok { OnOk result (Gains self.old self.new prefix) }
        ensures len { IfOk result
            (λ added. length self.new ≡ length self.old + (if added then 1 else 0)) }
        ensures kept { IfOk result (λ added. OnFalse added (self.new ≡ self.old)) }
        ensures absent { OnErr result (¬ Contains self.old prefix) }
        ensures err { OnErr result (self.new ≡ self.old) }
    {
        self.put(prefix)
    }

    fn put(&mut self, prefix: Prefix) -> Result<bool, NoMemory>
        ensures { Inserts self.old self.new prefix result }
    {
        match prefix.addr {
            Addr::V4(_) => self.v4.insert(aligned_of(prefix)),
            Addr::V6(_) => self.v6.insert(aligned_of(prefix)),
        }
    }

    /// Takes a prefix out. False exactly where it isn't there.
    pub fn remove(&mut self, prefix: Prefix) -> bool
        ensures removed { IsTrue result ↔ Contains self.old prefix }
        ensures changes { Loses self.old self.new prefix }
        ensures len { length self.new + (if result then 1 else 0) ≡ length self.old }
        ensures kept { OnFalse result (self.new ≡ self.old) }
    {
        self.take(prefix)
    }

    fn take(&mut self, prefix: Prefix) -> bool
        ensures { Removes self.old self.new prefix result }
    {
        match prefix.addr {
            Addr::V4(_) => self.v4.remove(aligned_of(prefix)),
            Addr::V6(_) => self.v6.remove(aligned_of(prefix)),
        }
    }

    /// An equal table.
    pub fn copy(&self) -> Result<Lpm, NoMemory>
        ensures { IfOk result (λ copy. copy ≡ self.now) }
    {
        Ok(Lpm {
            v4: self.v4.copy()?,
            v6: self.v6.copy()?,
        })
    }
}

// The prefixes of IPv4 that the blocks are.
fn narrow_prefixes(alloc: Global, blocks: &[Aligned]) -> Result<Vec<Prefix>, NoMemory>
    ensures { IfOk result (λ prefixes. prefixes.items ≡ map (prefix_of true) blocks.now) }
{
    Ok(
        blocks
            .iter()
            .map(|block| narrow_prefix(*block))
            .collect(alloc)?,
    )
}

// The prefixes of IPv6 that the blocks are.
fn wide_prefixes(alloc: Global, blocks: &[Aligned]) -> Result<Vec<Prefix>, NoMemory>
    ensures { IfOk result (λ prefixes. prefixes.items ≡ map (prefix_of false) blocks.now) }
{
    Ok(
        blocks
            .iter()
            .map(|block| wide_prefix(*block))
            .collect(alloc)?,
    )
}

// The blocks of the prefixes of IPv4.
fn narrow_blocks(alloc: Global, prefixes: &[Prefix]) -> Result<Vec<Aligned>, NoMemory>
    ensures { IfOk result (λ blocks. blocks.items ≡ map aligned_block (filter (λ p. is_narrow p.addr) prefixes.now)) }
{
    Ok(
        prefixes
            .iter()
            .copied()
            .filter(|prefix| is_narrow(prefix.addr))
            .map(|prefix| aligned_of(prefix))
            .collect(alloc)?,
    )
}

// The blocks of the prefixes of IPv6.
fn wide_blocks(alloc: Global, prefixes: &[Prefix]) -> Result<Vec<Aligned>, NoMemory>
    ensures { IfOk result
        (λ blocks. blocks.items ≡ map aligned_block (filter (λ p. if is_narrow p.addr then false else true) prefixes.now)) }
{
    Ok(
        prefixes
            .iter()
            .copied()
            .filter(|prefix| !is_narrow(prefix.addr))
            .map(|prefix| aligned_of(prefix))
            .collect(alloc)?,
    )
}

fn is_narrow(addr: Addr) -> bool
    ensures { result ≡ is_narrow addr }
{
    matches!(addr, Addr::V4(_))
}
