// What a phase needs, made before it begins.
ghost use Rattle.std.specs.Prelude.{◌≡◌, ◌≤◌, ◌<◌, ◌+◌, ◌^◌, ◌++◌, [], ◌∷◌, All, IfOk, map, vec_len, vec_capacity, Contains};
ghost use Rattle.std.specs.List.{range_with_len};
ghost use Rattle.npf_runner_dealing.specs.Lanes.{IsDealt, vec_items, queue_items};
ghost use Rattle.npf_runner.specs.Crew.{HasRoomFor, IsEquipped, numbers_of_worker, packets_of_worker, worker_of_lane, pass_of_lane, outcomes_of_lane, packets_of_lane};
ghost use Rattle.npf_runner.specs.Order.{IsOrder, workers_by};

use crate::numbers::{Numbers, numbers_from};
use crate::order::Order;
use crate::worker::{Lane, Worker};
use npf_engine::Outcome;
use npf_publish::ConfReader;
use npf_runner_dealing::deal;
use npf_traffic::Packet;
use npf_types::NoMemory;
use std::alloc::Global;
use std::collections::VecDeque;

/// Room for the lanes of a phase, for the passes that come back, and for what each worker has done.
#[derive(Drop)]
pub struct Room<'a, P: Drop> {
    pub lanes: Vec<Lane<'a, P>>,
    pub others: Vec<P>,
    pub queues: Queues<'a>,
}

/// What became of each worker's packets: their outcomes, and the packets as they then stand.
#[derive(Drop)]
pub struct Queues<'a> {
    pub outcomes: Vec<VecDeque<Outcome>>,
    pub packets: Vec<VecDeque<Packet<'a>>>,
}

impl<'a, P: Drop> Room<'a, P> {
    /// Room for so many workers of these packets and the control task.
    pub fn for_workers(
        alloc: Global,
        workers: u32,
        // They tell how long what the room is for is borrowed, and nothing more.
        _packets: &[Packet<'a>],
    ) -> Result<Room<'a, P>, NoMemory>
        requires { workers ≤ 64 }
        ensures { IfOk result (HasRoomFor workers) }
    {
        Ok(Room {
            lanes: Vec::with_capacity(alloc, workers as usize)?,
            others: Vec::with_capacity(alloc, workers as usize + 1)?,
            queues: Queues {
                outcomes: Vec::with_capacity(alloc, workers as usize)?,
                packets: Vec::with_capacity(alloc, workers as usize)?,
            },
        })
    }
}

/// The workers of packets that are numbered from `first` on, one for each of the readers, as the order has it; and a list in which
/// none of the packets is any more: where they were dealt, the one that they were in.
pub fn crew_of<'a>(
    alloc: Global,
    order: &Order,
    first: u64,
    packets: Vec<Packet<'a>>,
    readers: Vec<ConfReader>,
) -> Result<(Vec<Worker<'a>>, Vec<Packet<'a>>), NoMemory>
    requires readers { vec_len readers ≤ 64 }
    requires order { IsOrder order.now (vec_len packets) (vec_len readers) }
    requires first { first + vec_len packets < 2 ^ 64 }
    ensures count { IfOk result (λ crew. vec_len crew.0 ≡ vec_len readers) }
    ensures numbers { IfOk result (λ crew. IsDealt (workers_by order.now (vec_len packets.entry))
        (range_with_len first (vec_len packets.entry)) (map numbers_of_worker crew.0.items)) }
    ensures packets { IfOk result (λ crew. IsDealt (workers_by order.now (vec_len packets.entry))
        packets.entry.items (map packets_of_worker crew.0.items)) }
    ensures ready { IfOk result (λ crew. All IsEquipped crew.0.items) }
    ensures from { IfOk result (λ crew.
        All (λ worker. Contains readers.items worker.reader) crew.0.items) }
    ensures emptied { IfOk result (λ crew. crew.1.items ≡ []) }
{
    match order {
        Order::Only => {
            let crew = only_worker(alloc, first, packets, readers)?;
            Ok((crew, Vec::new(alloc)))
        }
        Order::Each(order) => {
            let order = order.as_slice();
            let workers = readers.len() as u32;
            let numbers = numbers_from(alloc, first, packets.len())?;
            let (numbers, _) = deal(alloc, numbers, order, workers)?;
            let (packets, emptied) = deal(alloc, packets, order, workers)?;
            let crew = workers_with(alloc, numbers, packets, readers)?;
            Ok((crew, emptied))
        }
    }
}

fn only_worker<'a>(
    alloc: Global,
    first: u64,
    packets: Vec<Packet<'a>>,
    mut readers: Vec<ConfReader>,
) -> Result<Vec<Worker<'a>>, NoMemory>
    requires { 1 ≤ vec_len readers }
    ensures count { IfOk result (λ crew. vec_len crew ≡ 1) }
    ensures numbers { IfOk result (λ crew.
        map numbers_of_worker crew.items ≡ range_with_len first (vec_len packets.entry) ∷ []) }
    ensures packets { IfOk result (λ crew. map packets_of_worker crew.items ≡ packets.entry.items ∷
        []) }
    ensures ready { IfOk result (λ crew. All IsEquipped crew.items) }
    ensures from { IfOk result (λ crew.
        All (λ worker. Contains readers.items worker.reader) crew.items) }
{
    let mut crew = Vec::with_capacity(alloc, 1)?;
    let reader = readers.pop().unwrap();
    let numbers = Numbers::From(first);
    crew.push_reserved(Worker::new(alloc, 0, reader, numbers, packets)?);
    Ok(crew)
}

/// A worker for each list of packets and of their numbers, with one of the readers.
fn workers_with<'a>(
    alloc: Global,
    numbers: Vec<Vec<u64>>,
    packets: Vec<Vec<Packet<'a>>>,
    mut readers: Vec<ConfReader>,
) -> Result<Vec<Worker<'a>>, NoMemory>
    requires numbered { vec_len numbers ≡ vec_len packets }
    requires enough { vec_len packets ≤ vec_len readers }
    requires few { vec_len packets ≤ 64 }
    ensures count { IfOk result (λ workers. vec_len workers ≡ vec_len packets.entry) }
    ensures numbers { IfOk result (λ workers. map numbers_of_worker workers.items ≡ map vec_items
        numbers.items) }
    ensures packets { IfOk result (λ workers. map packets_of_worker workers.items ≡ map vec_items
        packets.entry.items) }
    ensures ready { IfOk result (λ workers. All IsEquipped workers.items) }
    ensures readers { IfOk result (λ workers. All (λ worker. Contains readers.items worker.reader)
        workers.items) }
{
    let mut workers = Vec::with_capacity(alloc, packets.len())?;
    let mut left = VecDeque::from(numbers);
    for packets in packets {
        let number = workers.len() as u32;
        let reader = readers.pop().unwrap();
        let numbers = Numbers::Listed(left.pop_front().unwrap());
        let worker = Worker::new(alloc, number, reader, numbers, packets)?;
        workers.push_reserved(worker);
    }
    Ok(workers)
}

/// Each worker with one of the passes. It takes no memory.
pub fn lanes_with<'a, P: Drop>(
    workers: Vec<Worker<'a>>,
    passes: &mut Vec<P>,
    mut lanes: Vec<Lane<'a, P>>,
) -> Vec<Lane<'a, P>>
    requires enough { vec_len workers ≤ vec_len passes.old }
    requires empty { lanes.items ≡ [] }
    requires room { vec_len workers ≤ vec_capacity lanes }
    ensures count { vec_len result ≡ vec_len workers.entry }
    ensures workers { map worker_of_lane result.items ≡ workers.entry.items }
    ensures passes { All (λ lane. Contains passes.old.items lane.pass) result.items }
{
    for worker in workers {
        let pass = passes.pop().unwrap();
        lanes.push_reserved(Lane { pass, worker });
    }
    lanes
}

/// The passes, and what became of each worker's packets. It takes no memory.
pub fn apart<'a, P: Drop>(
    lanes: Vec<Lane<'a, P>>,
    passes: &mut Vec<P>,
    mut queues: Queues<'a>,
) -> Queues<'a>
    requires no_outcomes { queues.outcomes.items ≡ [] }
    requires no_packets { queues.packets.items ≡ [] }
    requires for_outcomes { vec_len lanes ≤ vec_capacity queues.outcomes }
    requires for_packets { vec_len lanes ≤ vec_capacity queues.packets }
    requires places { vec_len passes.old + vec_len lanes ≤ vec_capacity passes.old }
    ensures passes { passes.new.items ≡ passes.old.items ++ map pass_of_lane lanes.entry.items }
    ensures capacity { vec_capacity passes.new ≡ vec_capacity passes.old }
    ensures outcomes { map queue_items result.outcomes.items ≡ map outcomes_of_lane
        lanes.entry.items }
    ensures packets { map queue_items result.packets.items ≡ map packets_of_lane lanes.entry.items }
{
    for lane in lanes {
        let Lane { pass, worker } = lane;
        let Worker {
            number: _,
            reader: _,
            numbers: _,
            packets,
            outcomes,
        } = worker;
        passes.push_reserved(pass);
        queues.outcomes.push_reserved(VecDeque::from(outcomes));
        queues.packets.push_reserved(VecDeque::from(packets));
    }
    queues
}
