// The numbers of packets in the run.
ghost use Rattle.std.specs.Prelude.{◌≡◌, ◌<◌, ◌+◌, ◌^◌, IfOk, vec_len};
ghost use Rattle.std.specs.List.{range_with_len};
ghost use Rattle.npf_runner.specs.Numbers.{IsNumberedAt, packet_number};

use npf_types::NoMemory;
use std::alloc::Global;

/// The numbers of a worker's packets.
#[derive(Drop)]
pub enum Numbers {
    /// One after the other, from this one on.
    From(u64),
    /// These.
    Listed(Vec<u64>),
}

impl Numbers {
    /// The number of the packet at a place, counted from 0.
    pub fn at(&self, place: usize) -> u64
        requires { IsNumberedAt self.now place }
        ensures { result ≡ packet_number self.now place }
    {
        match self {
            Numbers::From(first) => *first + place as u64,
            Numbers::Listed(numbers) => numbers[place],
        }
    }
}

/// So many numbers, from `first` on.
pub fn numbers_from(alloc: Global, first: u64, count: usize) -> Result<Vec<u64>, NoMemory>
    requires { first + count < 2 ^ 64 }
    ensures count { IfOk result (λ numbers. vec_len numbers ≡ count) }
    ensures numbers { IfOk result (λ numbers. numbers.items ≡ range_with_len first count) }
{
    let mut numbers = Vec::with_capacity(alloc, count)?;
    for place in 0..count {
        numbers.push_reserved(first + place as u64);
    }
    Ok(numbers)
}
