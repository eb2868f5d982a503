// A table of prefixes beside the definition of a table as a program, with random prefixes and addresses.
use crate::draws::Draws;
use anyhow::{Context, Result};
use npf_lpm::Lpm;
use npf_types::{Addr, Prefix};
use std::alloc::Global;
use std::collections::HashSet;

#[derive(Clone, Copy)]
enum Step {
    Insert,
    Remove,
}

/// A table, and the prefixes that it is to have.
#[derive(Drop)]
struct Both {
    table: Lpm,
    plain: HashSet<Prefix>,
}

/// Whether a table answers as the plain program does: one that is made of so many random prefixes at once, to which others come
/// one after another, and from which as many go.
pub fn agrees(alloc: Global, seed: u64, at_once: u32, others: u32) -> Result<bool> {
    let mut draws = Draws { state: seed };
    let blocks = draws.blocks(alloc, at_once.saturating_add(others))?;
    let blocks = blocks.as_slice();
    let made = blocks.get(..at_once as usize).context("fewer blocks")?;
    let new = blocks.get(at_once as usize..).context("fewer blocks")?;
    let old = blocks.get(..others as usize).context("fewer blocks")?;
    let mut plain = HashSet::new(alloc);
    plain.extend(made.iter().copied())?;
    let table = Lpm::of_prefixes(alloc, made)?;
    let mut both = Both { table, plain };
    Ok(
        both.agree(&mut draws, blocks)
            && both.take_steps(Step::Insert, new)?
            && both.agree(&mut draws, blocks)
            && both.take_steps(Step::Remove, old)?
            && both.agree(&mut draws, blocks),
    )
}

impl Both {
    /// Whether both answer alike to this step with each of the prefixes.
    fn take_steps(&mut self, step: Step, blocks: &[Prefix]) -> Result<bool> {
        for block in blocks {
            let alike = match step {
                Step::Insert => self.table.insert(*block)? == self.plain.insert(*block)?,
                Step::Remove => self.table.remove(*block) == self.plain.remove(block),
            };
            if !alike {
                return Ok(false);
            }
        }
        Ok(true)
    }

    /// Whether both have as many prefixes, and the same addresses among random ones and those of blocks.
    fn agree(&self, draws: &mut Draws, blocks: &[Prefix]) -> bool {
        for _ in blocks {
            let addr = draws.addr_near(blocks);
            if self.table.contains(addr) != covers(&self.plain, addr) {
                return false;
            }
        }
        self.table.len() == self.plain.len() as u64
    }
}

/// Whether some prefix has the address: it is the block of the address with the prefix's length.
fn covers(prefixes: &HashSet<Prefix>, addr: Addr) -> bool {
    for len in 0..addr.width() + 1 {
        if Prefix::of(addr, len).is_some_and(|block| prefixes.contains(&block)) {
            return true;
        }
    }
    false
}
