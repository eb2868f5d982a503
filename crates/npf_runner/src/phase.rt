// One phase: its packets and its commands, side by side.
ghost use Rattle.std.specs.Prelude.{◌≡◌, ◌≤◌, ◌<◌, ◌+◌, ◌^◌, ◌++◌, [], List, All, IfOk, length, map, vec_len, vec_capacity};
ghost use Rattle.std.specs.List.{AllZip};
ghost use Rattle.npf_connections.specs.Pass.{all_places};
ghost use Rattle.npf_connections.specs.Stay.{IsLater, IsOut};
ghost use Rattle.npf_runner_dealing.specs.Lanes.{IsDealt};
ghost use Rattle.npf_flow.specs.Flows.{flow_law};
ghost use Rattle.npf_publish.specs.ConfReader.{IsNewReader, reader_range};
ghost use Rattle.npf_publish.specs.Publisher.{published_number, publisher_range};
ghost use Rattle.npf_engine.specs.Handles.{configurations};
ghost use Rattle.npf_runner.specs.Crew.{AreQueuesOf, HasJobs, HasRoomFor, IsEquipped, jobs_of};
ghost use Rattle.npf_runner.specs.Spread.{IsWorkerOf};
ghost use Rattle.npf_runner.specs.Job.{job_arrival, numbered_from};
ghost use Rattle.npf_runner.specs.Order.{IsOrder, workers_by};
ghost use Rattle.npf_runner.specs.Played.{outcomes_of, outputs_of};
ghost use Rattle.npf_traffic.specs.Phases.{published_by};
ghost use Rattle.npf_traffic.specs.Packet.{IsShortPacket};
ghost use Rattle.npf_runner.specs.Phase.{LeavesNoDead, RunsCrew, RunsPhase};

use crate::crew::{Queues, Room, apart, crew_of, lanes_with};
use crate::gate::Gate;
use crate::order::Order;
use crate::played::Answers;
use crate::shared::Shared;
use crate::threads::side_by_side;
use crate::worker::Worker;
use npf_connections::Connections;
use npf_flow::FlowLaw;
use npf_publish::Publisher;
use npf_runner_dealing::roomier;
use npf_runner_passes::{split_off, take_in};
use npf_traffic::{Command, Packet, Spread};
use npf_types::NoMemory;
use std::alloc::Global;
use std::sync::Wait;
use std::thread::Threads;

/// A phase's packets, the number of the first, how they are dealt to so many workers, and the last configuration that was published.
#[derive(Drop)]
pub struct Task<'a> {
    pub packets: Vec<Packet<'a>>,
    pub first: u64,
    pub workers: u32,
    pub spread: Spread,
    pub last: u64,
}

/// Which worker each packet goes to, the workers, the list that their packets were in, and the publisher that they read from.
struct PhaseSetup<'a> {
    order: Order,
    crew: Vec<Worker<'a>>,
    emptied: Vec<Packet<'a>>,
    publisher: Publisher,
}

/// Runs a phase, and adds what became of its packets to all that was there.
pub fn run_phase<'a, R: Threads + Wait + Sync, C: Connections<FlowLaw>, G: Gate>(
    shared: &Shared<'_, R, C, G>,
    pass: &mut C::Pass,
    task: Task<'a>,
    commands: &[Command],
    all: Answers<'a>,
) -> Result<Answers<'a>, NoMemory>
    requires out { IsOut flow_law (C.fits shared.now.conns.now) C.view pass.old }
    requires places { (C.view pass.old).places ≡ all_places }
    requires workers { (1 ≤ task.workers) × (task.workers ≤ 64) }
    requires first { (1 ≤ task.first) × (task.first + vec_len task.packets < 2 ^ 64) }
    requires short { All IsShortPacket task.packets.items }
    requires numbers { task.last + published_by commands.now < length shared.now.configs.now }
    requires for_outcomes { vec_len all.outcomes + vec_len task.packets ≤
        vec_capacity all.outcomes }
    requires for_packets { vec_len all.packets + vec_len task.packets ≤ vec_capacity all.packets }
    ensures out { IsOut flow_law (C.fits shared.now.conns.now) C.view pass.new }
    ensures later { IsLater (C.view pass.old) (C.view pass.new) }
    ensures clean { LeavesNoDead (C.view pass.old) (C.view pass.new) }
    ensures runs { IfOk result (λ done. (dones : List _) ×
        (done.outcomes.items ≡ all.entry.outcomes.items ++ outcomes_of dones) ×
        (done.packets.items ≡ all.entry.packets.items ++ outputs_of dones) ×
        RunsPhase C.view (configurations shared.now.configs.now)
        task.entry.workers task.entry.spread (C.view pass.old) (C.view pass.new) task.entry.last commands.now
        (numbered_from task.entry.first task.entry.packets.items) dones) }
    ensures outcomes_capacity { IfOk result
        (λ done. vec_capacity all.entry.outcomes ≤ vec_capacity done.outcomes) }
    ensures packets_capacity { IfOk result
        (λ done. vec_capacity all.entry.packets ≤ vec_capacity done.packets) }
{
    let room = Room::for_workers(shared.alloc, task.workers, &task.packets)?;
    let PhaseSetup {
        order,
        crew,
        emptied,
        mut publisher,
    } = prepare(shared.rt, shared.alloc, task, count_published(commands))?;
    let ran = run_crew(shared, pass, crew, room, commands, &mut publisher);
    publisher.close(shared.rt);
    let queues = ran?;
    Ok(Answers {
        outcomes: order.gather(queues.outcomes, all.outcomes),
        packets: order.gather(queues.packets, roomier(all.packets, emptied)),
    })
}

/// What a phase needs that publishes so many configurations.
fn prepare<'a, R: Threads + Wait + Sync>(
    rt: &R,
    alloc: Global,
    task: Task<'a>,
    published: u64,
) -> Result<PhaseSetup<'a>, NoMemory>
    requires workers { (1 ≤ task.workers) × (task.workers ≤ 64) }
    requires first { (1 ≤ task.first) × (task.first + vec_len task.packets < 2 ^ 64) }
    requires short { All IsShortPacket task.packets.items }
    requires numbers { task.last + published < 2 ^ 64 }
    ensures order { IfOk result (λ made.
        IsOrder made.order (vec_len task.entry.packets) task.entry.workers) }
    ensures spreads { IfOk result (λ made. AllZip
        (λ job worker. IsWorkerOf task.entry.spread task.entry.workers (job_arrival job) worker)
        (numbered_from task.entry.first task.entry.packets.items)
        (workers_by made.order (vec_len task.entry.packets))) }
    ensures dealt { IfOk result (λ made. IsDealt
        (workers_by made.order (vec_len task.entry.packets))
        (numbered_from task.entry.first task.entry.packets.items) (map jobs_of made.crew.items)) }
    ensures count { IfOk result (λ made. vec_len made.crew ≡ task.entry.workers) }
    ensures jobs { IfOk result (λ made. All HasJobs made.crew.items) }
    ensures ready { IfOk result (λ made. All IsEquipped made.crew.items) }
    ensures readers { IfOk result (λ made. All
        (λ worker. IsNewReader (record {
          first = task.entry.last;
          last = task.entry.last +
              published;
        }) worker.reader) made.crew.items) }
    ensures emptied { IfOk result (λ made. made.emptied.items ≡ []) }
    ensures number { IfOk result (λ made. published_number made.publisher ≡ task.entry.last) }
    ensures range { IfOk result (λ made. publisher_range made.publisher ≡ record
        { first = task.entry.last; last = task.entry.last + published }) }
{
    let Task {
        packets,
        first,
        workers,
        spread,
        last,
    } = task;
    let order = Order::of(rt, alloc, packets.as_slice(), first, spread, workers)?;
    let (publisher, readers) = Publisher::new(rt, alloc, workers, last, last + published)?;
    match crew_of(alloc, &order, first, packets, readers) {
        Ok((crew, emptied)) => Ok(PhaseSetup {
            order,
            crew,
            emptied,
            publisher,
        }),
        Err(NoMemory) => {
            publisher.close(rt);
            Err(NoMemory)
        }
    }
}

/// Runs the workers beside the control task, with passes that are split off the pass and taken in again. Where memory runs out
/// before they begin, the pass stays whole.
fn run_crew<'a, R: Threads + Wait + Sync, C: Connections<FlowLaw>, G: Gate>(
    shared: &Shared<'_, R, C, G>,
    pass: &mut C::Pass,
    crew: Vec<Worker<'a>>,
    room: Room<'a, C::Pass>,
    commands: &[Command],
    publisher: &mut Publisher,
) -> Result<Queues<'a>, NoMemory>
    requires out { IsOut flow_law (C.fits shared.now.conns.now) C.view pass.old }
    requires places { (C.view pass.old).places ≡ all_places }
    requires crew { (1 ≤ vec_len crew) × (vec_len crew ≤ 64) }
    requires ready { All IsEquipped crew.items }
    requires jobs { All HasJobs crew.items }
    requires readers { All (λ worker. (reader_range worker.reader).last < length
        shared.now.configs.now) crew.items }
    requires numbers { published_number publisher.old + published_by commands.now ≤
        (publisher_range publisher.old).last }
    requires room { HasRoomFor (vec_len crew) room }
    ensures out { IsOut flow_law (C.fits shared.now.conns.now) C.view pass.new }
    ensures later { IsLater (C.view pass.old) (C.view pass.new) }
    ensures clean { LeavesNoDead (C.view pass.old) (C.view pass.new) }
    ensures runs { IfOk result (λ queues. (dones : List (List _)) × AreQueuesOf dones queues ×
        RunsCrew C.view (configurations shared.now.configs.now) (C.view pass.old) (C.view pass.new)
        commands.now crew.entry.items dones) }
{
    let count = crew.len() as u32 + 1;
    let mut passes = split_off(shared.rt, shared.alloc, shared.conns, pass, count)?;
    let own = passes.pop().unwrap();
    let Room {
        lanes,
        mut others,
        queues,
    } = room;
    let lanes = lanes_with(crew, &mut passes, lanes);
    let ((own, published), lanes) = side_by_side(shared, own, commands, publisher, lanes);
    let queues = apart(lanes, &mut others, queues);
    others.push_reserved(own);
    take_in(shared.rt, shared.conns, pass, others);
    shared.conns.collect(shared.rt, pass);
    published?;
    Ok(queues)
}

/// How many configurations the commands publish.
pub fn count_published(commands: &[Command]) -> u64
    ensures { result ≡ published_by commands.now }
{
    let mut count = 0;
    for command in commands {
        if matches!(command, Command::Publish(_)) {
            count += 1;
        }
    }
    count
}
