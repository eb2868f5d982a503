// Workers beside each other.
ghost use Rattle.std.specs.Prelude.{◌≡◌, ◌≤◌, ◌<◌, ◌+◌, ℕ, All, OnOk, length, vec_len, slice_index_or};
ghost use Rattle.npf_connections.specs.Stay.{IsOut};
ghost use Rattle.npf_flow.specs.Flows.{flow_law};
ghost use Rattle.npf_publish.specs.Publisher.{published_number, publisher_range};
ghost use Rattle.npf_engine.specs.Handles.{configurations};
ghost use Rattle.npf_runner.specs.Commands.{Runs};
ghost use Rattle.npf_runner.specs.Lanes.{CanWork, HasWorked};
ghost use Rattle.npf_traffic.specs.Phases.{published_by};
ghost use Rattle.npf_runner.specs.Works.{IsRested};

use crate::control::control;
use crate::gate::Gate;
use crate::shared::Shared;
use crate::worker::{Lane, work};
use npf_connections::Connections;
use npf_flow::FlowLaw;
use npf_publish::Publisher;
use npf_runner_threads::{Busy, any_busy, for_each_busy_mut};
use npf_traffic::Command;
use npf_types::NoMemory;
use std::sync::Wait;
use std::thread::{Threads, join};

/// A worker without packets has nothing to do, and takes no thread.
impl<'a, P: Drop> Busy for Lane<'a, P> {
    fn is_busy(&self) -> bool {
        !self.worker.packets.is_empty()
    }
}

/// The control task beside all workers. Where there are commands and packets, the control task has a thread of its own; else the caller does
/// the commands, and then the workers' part.
pub fn side_by_side<'a, R: Threads + Wait + Sync, C: Connections<FlowLaw>, G: Gate>(
    shared: &Shared<'_, R, C, G>,
    pass: C::Pass,
    commands: &[Command],
    publisher: &mut Publisher,
    mut lanes: Vec<Lane<'a, C::Pass>>,
) -> ((C::Pass, Result<(), NoMemory>), Vec<Lane<'a, C::Pass>>)
    requires out { IsOut flow_law (C.fits shared.now.conns.now) C.view pass }
    requires numbers { published_number publisher.old + published_by commands.now ≤
        (publisher_range publisher.old).last }
    requires can { All (CanWork (C.fits shared.now.conns.now) C.view
        (length shared.now.configs.now)) lanes.items }
    ensures out { IsOut flow_law (C.fits shared.now.conns.now) C.view result.0.0 }
    ensures rested { IsRested (C.view pass) (C.view result.0.0) }
    ensures runs { OnOk result.0.1 (Runs commands.now (C.view pass) (C.view result.0.0)) }
    ensures lanes { All (λ lane. IsOut flow_law (C.fits shared.now.conns.now) C.view lane.pass)
        result.1.items }
    ensures count { vec_len result.1 ≡ vec_len lanes.entry }
    ensures worked { (i : ℕ) (d : _) → i < vec_len lanes.entry → HasWorked C.view
        (configurations shared.now.configs.now) (slice_index_or lanes.entry.items i d)
        (slice_index_or result.1.items i d) }
{
    if commands.is_empty() || !any_busy(lanes.as_slice()) {
        let controlled = control(shared.rt, shared.conns, pass, commands, publisher);
        work_all(shared, lanes.as_mut_slice());
        return (controlled, lanes);
    }
    let rt = shared.rt;
    let conns = shared.conns;
    join(
        rt,
        ||
            requires { IsOut flow_law (C.fits conns.now) C.view pass ×
                (published_number publisher.now + published_by commands.now ≤
                (publisher_range publisher.now).last) }
        { control(rt, conns, pass, commands, publisher) },
        move ||
            requires { All (CanWork (C.fits shared.now.conns.now) C.view
                (length shared.now.configs.now)) lanes.items }
        {
            work_all(shared, lanes.as_mut_slice());
            lanes
        },
    )
}

/// All workers at once, each that has packets on a thread of its own but for one.
fn work_all<R: Threads + Wait + Sync, C: Connections<FlowLaw>, G: Gate>(
    shared: &Shared<'_, R, C, G>,
    lanes: &mut [Lane<'_, C::Pass>],
)
    requires can { All (CanWork (C.fits shared.now.conns.now) C.view
        (length shared.now.configs.now)) lanes.old }
    ensures lanes { All (λ lane. IsOut flow_law (C.fits shared.now.conns.now) C.view lane.pass)
        lanes.new }
    ensures worked { (i : ℕ) (d : _) → i < length lanes.old → HasWorked C.view
        (configurations shared.now.configs.now) (slice_index_or lanes.old i d)
        (slice_index_or lanes.new i d) }
{
    for_each_busy_mut(
        shared.rt,
        lanes,
        &|_, lane: &mut Lane<'_, C::Pass>|
            requires { CanWork (C.fits shared.now.conns.now) C.view (length shared.now.configs.now)
                lane.old }
        { work(shared, lane) },
    );
}
