// The run of a generated input.
ghost use Rattle.std.specs.Prelude.{ℕ, List, IfOk};
ghost use Rattle.npf_outside.specs.Files.{FilesMoment};
ghost use Rattle.npf_ctl_prepare.specs.Playable.{IsPlayable};
ghost use Rattle.npf_ctl_words.specs.declared.command.Invocation.{Invocation as CommandType};
ghost use Rattle.npf_ctl_words.specs.CommandLine.{SaysCommand};
ghost use Rattle.npf_connections.specs.Stay.{IsLater, IsOut};
ghost use Rattle.npf_flow.specs.Flows.{flow_law};
ghost use Rattle.npf_ctl.specs.Ends.{EndsIn, IsFresh, PreparesGenerated};
ghost use Rattle.npf_ctl.specs.Run.{moment};

use crate::fragments::put_together;
use crate::generated_files::GeneratedFiles;
use npf_connections::Connections;
use npf_ctl_arrivals::Captures;
use npf_ctl_messages::CommandFault;
use npf_ctl_output::put_total;
use npf_ctl_prepare::laws::contents_decide;
use npf_ctl_prepare::{Prepared, RunFiles, prepare_run};
use npf_flow::FlowLaw;
use npf_outside::Sink;
use npf_pieces::DatagramBytes;
use npf_runner::{Gate, Played, Spread, play};
use std::alloc::Global;
use std::sync::Wait;
use std::thread::Threads;

/// Runs the generated input of a number with one worker, and puts the total line alone.
pub(crate) fn run_generated<R: Threads + Wait + Sync, O: Sink, C: Connections<FlowLaw>, G: Gate>(
    rt: &R,
    alloc: Global,
    number: u64,
    out: &mut O,
    conns: &C,
    pass: &mut C::Pass,
    gate: &G,
) -> Result<(), CommandFault>
    requires out { IsOut flow_law (C.fits conns.now) C.view pass.old }
    requires fresh { IsFresh (C.view pass.old) }
    ensures ends { (texts : List (List ℕ)) (files : FilesMoment) → SaysCommand texts (CommandType.Gen number) → EndsIn texts
        (moment files (O.moment out.old) (C.view pass.old)) (moment files (O.moment out.new) (C.view pass.new)) result }
    ensures out { IsOut flow_law (C.fits conns.now) C.view pass.new }
    ensures later { IsLater (C.view pass.old) (C.view pass.new) }
{
    let mut captures = Captures::new(alloc);
    let mut datagrams = DatagramBytes::new(alloc);
    let prepared = prepare_generated(alloc, number, &mut captures)?;
    let whole = put_together(rt, alloc, prepared, 1, &mut datagrams)?;
    let Prepared {
        ifaces: _,
        configs,
        packets,
        phases,
    } = whole;
    let phases = phases.as_slice();
    let configs = configs.as_slice();
    let spread = Spread::Rr;
    let played = play(
        rt, alloc, packets, phases, configs, 1, spread, conns, pass, gate,
    )?;
    let Played {
        outcomes,
        packets: _packets,
    } = played;
    put_total(alloc, outcomes.as_slice(), out)
}

fn prepare_generated<'a>(
    alloc: Global,
    number: u64,
    captures: &'a mut Captures,
) -> Result<Prepared<'a>, CommandFault>
    ensures comes { PreparesGenerated number result }
    ensures playable { IfOk result IsPlayable }
{
    contents_decide();
    let mut files = GeneratedFiles::new(alloc, number)?;
    let names = RunFiles {
        conf: "npf.conf",
        script: "script",
        ifaces: None,
        tap: None,
        every: None,
    };
    prepare_run(alloc, names, &mut files, captures)
}
