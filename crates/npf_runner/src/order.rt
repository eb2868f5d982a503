// Which worker takes each packet of a phase, and their answers in the order of the packets again.
ghost use Rattle.std.specs.Prelude.{◌≡◌, ◌≤◌, ◌<◌, ◌+◌, ◌^◌, ◌++◌, List, All, IfOk, length, map, vec_len, vec_capacity};
ghost use Rattle.std.specs.List.{AllZip};
ghost use Rattle.npf_runner_dealing.specs.Lanes.{queue_items};
ghost use Rattle.npf_runner.specs.Job.{job_arrival, numbered_from};
ghost use Rattle.npf_runner.specs.Order.{IsDealtBy, IsOrder, workers_by};
ghost use Rattle.npf_runner.specs.Spread.{IsWorkerOf};
ghost use Rattle.npf_traffic.specs.Packet.{IsShortPacket};

use crate::spread::workers_of;
use npf_runner_dealing::{append, gather};
use npf_traffic::{Packet, Spread};
use npf_types::NoMemory;
use std::alloc::Global;
use std::collections::VecDeque;
use std::thread::Threads;

/// The worker of each of some packets, counted from 0.
#[derive(Drop)]
pub enum Order {
    /// All go to the only worker.
    Only,
    /// Each goes to the worker at its place here.
    Each(Vec<u8>),
}

impl Order {
    /// The order of packets that are numbered from `first` on. For one worker it takes no memory and looks at no packet.
    pub fn of<R: Threads + Sync>(
        rt: &R,
        alloc: Global,
        packets: &[Packet<'_>],
        first: u64,
        spread: Spread,
        workers: u32,
    ) -> Result<Order, NoMemory>
        requires workers { (1 ≤ workers) × (workers ≤ 64) }
        requires first { (1 ≤ first) × (first + length packets.now < 2 ^ 64) }
        requires short { All IsShortPacket packets.now }
        ensures fits { IfOk result (λ order. IsOrder order (length packets.now) workers) }
        ensures each { IfOk result (λ order. AllZip
            (λ job worker. IsWorkerOf spread workers (job_arrival job) worker)
            (numbered_from first packets.now) (workers_by order (length packets.now))) }
    {
        if workers == 1 {
            return Ok(Order::Only);
        }
        Ok(Order::Each(workers_of(rt, alloc, packets, first, spread, workers)?))
    }

    /// All that was there, and then what the workers' queues have, in the order of the packets. It takes no memory.
    pub fn gather<T: Drop>(&self, mut queues: Vec<VecDeque<T>>, all: Vec<T>) -> Vec<T>
        requires dealt { (xs : List T) × IsDealtBy self.now xs (map queue_items queues.items) ×
            (vec_len all + length xs ≤ vec_capacity all) }
        ensures gathered { (xs : List T) → IsDealtBy self.now xs (map queue_items queues.items) →
            result.items ≡ all.items ++ xs }
        ensures capacity { vec_capacity all ≤ vec_capacity result }
    {
        match self {
            Order::Only => append(queues.pop().unwrap(), all),
            Order::Each(workers) => gather(workers.as_slice(), queues, all),
        }
    }
}
