// A worker, and its part of a phase.
ghost use Rattle.std.specs.Prelude.{◌≡◌, ◌≤◌, ◌<◌, length, IfOk};
ghost use Rattle.npf_connections.specs.Stay.{IsOut};
ghost use Rattle.npf_flow.specs.Flows.{flow_law};
ghost use Rattle.npf_publish.specs.ConfReader.{reader_range};
ghost use Rattle.npf_engine.specs.Handles.{configurations};
ghost use Rattle.npf_runner.specs.Crew.{IsEquipped};
ghost use Rattle.npf_runner.specs.Job.{IsJob};
ghost use Rattle.npf_runner.specs.Lanes.{CanWork, HasWorked};
ghost use Rattle.npf_runner.specs.Works.{IsHandled};

use crate::gate::Gate;
use crate::numbers::Numbers;
use crate::shared::Shared;
use npf_connections::Connections;
use npf_engine::Outcome;
use npf_flow::FlowLaw;
use npf_publish::ConfReader;
use npf_traffic::Packet;
use npf_types::NoMemory;
use std::alloc::Global;
use std::mem::replace;
use std::sync::Wait;

/// What a worker, counted from 0, needs beside a pass: its reader, its packets in order with their numbers, and room for their outcomes.
#[derive(Drop)]
pub struct Worker<'a> {
    pub number: u32,
    pub reader: ConfReader,
    pub numbers: Numbers,
    pub packets: Vec<Packet<'a>>,
    pub outcomes: Vec<Outcome>,
}

impl<'a> Worker<'a> {
    /// A worker with room for the outcomes of its packets.
    pub fn new(
        alloc: Global,
        number: u32,
        reader: ConfReader,
        numbers: Numbers,
        packets: Vec<Packet<'a>>,
    ) -> Result<Worker<'a>, NoMemory>
        ensures reader { IfOk result (λ worker. worker.reader ≡ reader) }
        ensures numbers { IfOk result (λ worker. worker.numbers ≡ numbers) }
        ensures packets { IfOk result (λ worker. worker.packets ≡ packets.entry) }
        ensures ready { IfOk result IsEquipped }
    {
        let outcomes = Vec::with_capacity(alloc, packets.len())?;
        Ok(Worker {
            number,
            reader,
            numbers,
            packets,
            outcomes,
        })
    }
}

/// A worker with its pass.
#[derive(Drop)]
pub struct Lane<'a, P: Drop> {
    pub pass: P,
    pub worker: Worker<'a>,
}

/// Handles a worker's packets in order where they stand, the gate being told of each. Their outcomes are put into the lane at the
/// end only: till then the worker writes nothing near another's lane for them.
pub fn work<R: Wait, C: Connections<FlowLaw>, G: Gate>(
    shared: &Shared<'_, R, C, G>,
    lane: &mut Lane<'_, C::Pass>,
)
    requires can { CanWork (C.fits shared.now.conns.now) C.view (length shared.now.configs.now)
        lane.old }
    ensures out { IsOut flow_law (C.fits shared.now.conns.now) C.view lane.new.pass }
    ensures worked { HasWorked C.view (configurations shared.now.configs.now) lane.old lane.new }
{
    let Lane { pass, worker } = lane;
    let Worker {
        number,
        reader,
        numbers,
        packets,
        outcomes,
    } = worker;
    let mut told = replace(outcomes, Vec::new(shared.alloc));
    for place in 0..packets.len() {
        let n = numbers.at(place);
        let outcome = handle(shared, pass, reader, *number, n, &mut packets[place]);
        told.push_reserved(outcome);
    }
    *outcomes = told;
}

/// Handles a worker's packet of this number, of which the gate is told, unless it is a fragment that is held.
fn handle<R: Wait, C: Connections<FlowLaw>, G: Gate>(
    shared: &Shared<'_, R, C, G>,
    pass: &mut C::Pass,
    reader: &mut ConfReader,
    worker: u32,
    number: u64,
    packet: &mut Packet<'_>,
) -> Outcome
    requires out { IsOut flow_law (C.fits shared.now.conns.now) C.view pass.old }
    requires place { 1 ≤ (C.view pass.old).places }
    requires short { IsJob (record { number = number; packet = packet.old }) }
    requires numbers { (reader_range reader.old).last < length shared.now.configs.now }
    ensures out { IsOut flow_law (C.fits shared.now.conns.now) C.view pass.new }
    ensures handled { IsHandled (configurations shared.now.configs.now) (C.view pass.old)
        (C.view pass.new) reader.old reader.new (record { number = number; packet = packet.old })
        (record { outcome = result; packet = packet.new }) }
{
    if let Some(why) = packet.held {
        return Outcome::Fragment { why };
    }
    shared.gate.before(worker, number);
    let outcome = npf_engine::packet(
        shared.rt,
        shared.conns,
        pass,
        reader,
        shared.configs,
        number,
        packet.time,
        packet.link,
        packet.ifid,
        packet.dir,
        packet.bytes.as_mut_slice(),
    );
    shared.gate.after(worker, number);
    outcome
}
