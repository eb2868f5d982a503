// The control task: a phase's commands, one after the other.
ghost use Rattle.std.specs.Prelude.{◌≡◌, ◌≤◌, ◌+◌, [], ◌∷◌, OnOk};
ghost use Rattle.npf_connections.specs.Stay.{IsOut};
ghost use Rattle.npf_flow.specs.Flows.{flow_law};
ghost use Rattle.npf_publish.specs.Publisher.{published_number, publisher_range};
ghost use Rattle.npf_runner.specs.Commands.{ExpiresDue, Runs};
ghost use Rattle.npf_traffic.specs.Phases.{published_by};
ghost use Rattle.npf_runner.specs.Works.{IsRested};

use npf_connections::Connections;
use npf_flow::FlowLaw;
use npf_publish::Publisher;
use npf_traffic::Command;
use npf_types::NoMemory;
use std::sync::Wait;

/// Does the commands in order. A publication that wants memory ends them.
pub fn control<R: Wait, C: Connections<FlowLaw>>(
    rt: &R,
    conns: &C,
    mut pass: C::Pass,
    commands: &[Command],
    publisher: &mut Publisher,
) -> (C::Pass, Result<(), NoMemory>)
    requires out { IsOut flow_law (C.fits conns.now) C.view pass }
    requires numbers { published_number publisher.old + published_by commands.now ≤
        (publisher_range publisher.old).last }
    ensures out { IsOut flow_law (C.fits conns.now) C.view result.0 }
    ensures rested { IsRested (C.view pass) (C.view result.0) }
    ensures runs { OnOk result.1 (Runs commands.now (C.view pass) (C.view result.0)) }
    ensures published { OnOk result.1 (published_number publisher.new ≡ published_number
        publisher.old + published_by commands.now) }
{
    for command in commands {
        if obey(rt, conns, &mut pass, *command, publisher).is_err() {
            return (pass, Err(NoMemory));
        }
    }
    (pass, Ok(()))
}

fn obey<R: Wait, C: Connections<FlowLaw>>(
    rt: &R,
    conns: &C,
    pass: &mut C::Pass,
    command: Command,
    publisher: &mut Publisher,
) -> Result<(), NoMemory>
    requires out { IsOut flow_law (C.fits conns.now) C.view pass.old }
    requires numbers { published_number publisher.old + published_by (command ∷ []) ≤
        (publisher_range publisher.old).last }
    ensures out { IsOut flow_law (C.fits conns.now) C.view pass.new }
    ensures rested { IsRested (C.view pass.old) (C.view pass.new) }
    ensures runs { OnOk result (Runs (command ∷ []) (C.view pass.old) (C.view pass.new)) }
    ensures range { publisher_range publisher.new ≡ publisher_range publisher.old }
    ensures number { OnOk result (published_number publisher.new ≡ published_number publisher.old +
        published_by (command ∷ [])) }
{
    match command {
        Command::Publish(_) => {
            publisher.publish(rt)?;
        }
        Command::Expire(now) => expire(rt, conns, pass, now),
    }
    Ok(())
}

/// Kills what is due, and then frees what may be freed. A table whose readers are still at work may take three calls to free what was
/// killed.
fn expire<R: Wait, C: Connections<FlowLaw>>(rt: &R, conns: &C, pass: &mut C::Pass, now: u64)
    requires out { IsOut flow_law (C.fits conns.now) C.view pass.old }
    ensures out { IsOut flow_law (C.fits conns.now) C.view pass.new }
    ensures rested { IsRested (C.view pass.old) (C.view pass.new) }
    ensures expires { ExpiresDue now (C.view pass.old) (C.view pass.new) }
{
    conns.expire(rt, pass, now);
    conns.collect(rt, pass);
    conns.collect(rt, pass);
    conns.collect(rt, pass);
}
