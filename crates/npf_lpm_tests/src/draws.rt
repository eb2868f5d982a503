// Random addresses and prefixes, the same in each run.
use anyhow::{Context, Result};
use npf_types::{Addr, Prefix};
use std::alloc::Global;

// Knuth's MMIX generator, its high bits folded over the low ones.
#[derive(Drop)]
pub struct Draws {
    pub state: u64,
}

impl Draws {
    fn next(&mut self) -> u64 {
        self.state = self
            .state
            .wrapping_mul(6_364_136_223_846_793_005)
            .wrapping_add(1_442_695_040_888_963_407);
        self.state ^ (self.state >> 29)
    }

    fn addr(&mut self) -> Addr {
        let low = self.next();
        if low % 2 == 0 {
            Addr::V4((low >> 32) as u32)
        } else {
            Addr::V6((self.next() as u128) << 64 | low as u128)
        }
    }

    /// A block around the address, with a length of 9 to 32 or of 9 to 128.
    fn block_of(&mut self, addr: Addr) -> Option<Prefix> {
        let lengths = match addr {
            Addr::V4(_) => 24,
            Addr::V6(_) => 120,
        };
        Prefix::of(addr, 9 + (self.next() % lengths) as u8)
    }

    /// Random prefixes, of which half overlap others.
    pub fn blocks(&mut self, alloc: Global, count: u32) -> Result<Vec<Prefix>> {
        let mut blocks = Vec::new(alloc);
        for _ in 0..count {
            let addr = self.addr_near(&blocks);
            let block = self.block_of(addr).context("a length past the width")?;
            blocks.push(block)?;
        }
        Ok(blocks)
    }

    /// An address, or as often one of a block.
    pub fn addr_near(&mut self, blocks: &[Prefix]) -> Addr {
        let at = self.next() as usize;
        if at % 2 == 0 || blocks.is_empty() {
            self.addr()
        } else {
            self.inside(&blocks[at % blocks.len()])
        }
    }

    fn inside(&mut self, block: &Prefix) -> Addr {
        match block.addr {
            Addr::V4(a) => {
                let hosts = u32::MAX.checked_shr(block.len as u32).unwrap_or(0);
                Addr::V4(a | (self.next() >> 32) as u32 & hosts)
            }
            Addr::V6(a) => {
                let hosts = u128::MAX.checked_shr(block.len as u32).unwrap_or(0);
                let bits = (self.next() as u128) << 64 | self.next() as u128;
                Addr::V6(a | bits & hosts)
            }
        }
    }
}
