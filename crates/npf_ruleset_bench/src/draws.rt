// Random addresses and prefixes, the same in each run and in bench/lpm.c.
use npf_types::{Addr, NoMemory, Prefix};
use std::alloc::Global;

/// How many prefixes a table is made of.
pub const PREFIXES: u32 = 131_072;

/// What the draws of a table begin with.
pub const SEED: u64 = 20_240_229;

// What a table is made of.
#[derive(Clone, Copy)]
pub enum Sort {
    RandomV4,
    // Six of ten prefixes are 24 bits long, as in a table of routes.
    RoutesV4,
    RandomV6,
    // All prefixes lie in 1,024 blocks of 32 bits.
    ClusteredV6,
}

impl Sort {
    /// As the lines of the bench call a table of it.
    pub fn name(self) -> &'static str {
        match self {
            Sort::RandomV4 => "prefixes, random IPv4",
            Sort::RoutesV4 => "prefixes, /24-heavy IPv4",
            Sort::RandomV6 => "prefixes, random IPv6",
            Sort::ClusteredV6 => "prefixes, clustered IPv6",
        }
    }
}

// Knuth's MMIX generator, its high bits folded over the low ones.
#[derive(Drop)]
pub struct Draws {
    pub state: u64,
}

impl Draws {
    pub fn next(&mut self) -> u64 {
        self.state = self
            .state
            .wrapping_mul(6_364_136_223_846_793_005)
            .wrapping_add(1_442_695_040_888_963_407);
        self.state ^ (self.state >> 29)
    }

    pub fn addr(&mut self, sort: Sort) -> Addr {
        let high = self.next();
        let low = self.next();
        match sort {
            Sort::RandomV4 | Sort::RoutesV4 => Addr::V4((high >> 32) as u32),
            Sort::RandomV6 => Addr::V6(u128::from(high) << 64 | u128::from(low)),
            Sort::ClusteredV6 => {
                let cluster = 0x2001_0000 + (high >> 32) % 1024;
                let rest = high & 0xffff_ffff;
                Addr::V6(u128::from(cluster) << 96 | u128::from(rest) << 64 | u128::from(low))
            }
        }
    }

    fn prefix(&mut self, sort: Sort) -> Option<Prefix> {
        let addr = self.addr(sort);
        Prefix::of(addr, length(sort, self.next() >> 8))
    }

    pub fn prefixes(
        &mut self,
        alloc: Global,
        sort: Sort,
        count: u32,
    ) -> Result<Vec<Prefix>, NoMemory> {
        let mut prefixes = Vec::new(alloc);
        for _ in 0..count {
            if let Some(prefix) = self.prefix(sort) {
                prefixes.push(prefix)?;
            }
        }
        Ok(prefixes)
    }

    // An address of the block.
    pub fn inside(&mut self, block: &Prefix) -> Addr {
        let high = self.next();
        let low = self.next();
        match block.addr {
            Addr::V4(first) => {
                let host = u32::MAX.checked_shr(u32::from(block.len)).unwrap_or(0);
                Addr::V4(first | (high >> 32) as u32 & host)
            }
            Addr::V6(first) => {
                let host = u128::MAX.checked_shr(u32::from(block.len)).unwrap_or(0);
                Addr::V6(first | (u128::from(high) << 64 | u128::from(low)) & host)
            }
        }
    }
}

fn length(sort: Sort, draw: u64) -> u8 {
    match sort {
        Sort::RandomV4 => 20 + (draw % 13) as u8,
        Sort::RoutesV4 => route_length(draw),
        Sort::RandomV6 => 40 + (draw % 89) as u8,
        Sort::ClusteredV6 => 48 + (draw % 17) as u8,
    }
}

fn route_length(draw: u64) -> u8 {
    if draw % 10 < 6 {
        return 24;
    }
    16 + (draw % 8) as u8
}
