// A run: it is prepared, its fragments are put together, its connections are loaded, it is played and reported, what passed is written, and
// its connections are saved.
// Files are loaded, written and saved where the words name them.
ghost use Rattle.std.specs.Prelude.{◌≡◌, ◌≤◌, ◌<◌, ℕ, List, All, IfOk, IfErr, IfSome, OnOk, IsErrOf, length};
ghost use Rattle.npf_outside.specs.Files.{SameOthers};
ghost use Rattle.npf_outside.specs.Sink.{Appends};
ghost use Rattle.npf_ctl_arrivals.specs.Within.{HasCaptureTime};
ghost use Rattle.npf_traffic.specs.declared.packet.Packet.{Packet as PacketType};
ghost use Rattle.npf_runner.specs.Plays.{PlaysPhases};
ghost use Rattle.npf_ctl_output.specs.Extents.{AreExtentsOf, EndsInPacket};
ghost use Rattle.npf_ctl_output.specs.Outputs.{AreOutputsOf};
ghost use Rattle.npf_ctl_output.specs.Report.{report_text};
ghost use Rattle.npf_ctl_output.specs.File.{HasReadOn, IsUnwritten, KeepsUnnamed};
ghost use Rattle.npf_ctl_prepare.specs.Playable.{IsPlayable};
ghost use Rattle.npf_ctl_prepare.specs.View.{run_plan_of};
ghost use Rattle.npf_ctl_words.specs.declared.command.Invocation.{Invocation as CommandType};
ghost use Rattle.npf_ctl_words.specs.CommandLine.{SaysCommand, given_text};
ghost use Rattle.npf_ctl_messages.specs.declared.fault.CommandFault.{CommandFault as FaultType};
ghost use Rattle.npf_ctl.specs.Commands.{spread_said, tap_said};
ghost use Rattle.npf_connections.specs.Stay.{IsLater, IsOut};
ghost use Rattle.npf_flow.specs.Flows.{flow_law};
ghost use Rattle.npf_ctl.specs.Ends.{EndsIn, FailsPlan, FailsReport, FollowsPlan, IsFresh, MayBegin};
ghost use Rattle.npf_ctl.specs.Run.{IsWrittenTo, moment};
ghost use Rattle.npf_ctl.specs.Top.{KeepsOtherFiles};

use crate::fragments::put_together;
use crate::saves::save_connections;
use npf_connections::Connections;
use npf_ctl_arrivals::Captures;
use npf_ctl_input::NamedTap;
use npf_ctl_messages::CommandFault;
use npf_ctl_output::{PassedPackets, ip_extents, put_report, write_parts};
use npf_ctl_prepare::{Prepared, RunFiles, prepare_run};
use npf_ctl_saved::{interface_names, load_connections};
use npf_ctl_words::{RunWords, SpreadWord};
use npf_flow::FlowLaw;
use npf_outside::{Files, Sink};
use npf_packet::IpExtent;
use npf_pieces::DatagramBytes;
use npf_runner::{Gate, Played, Spread, play};
use npf_types::{Dir, Name};
use std::alloc::Global;
use std::sync::Wait;
use std::thread::Threads;

/// Runs a script's packets with the connections of a file, where the words name one; puts the report, writes what passed and saves the connections
/// where the words name files for them. A failing put ends the run before anything is written.
pub(crate) fn run<R: Threads + Wait + Sync, F: Files, O: Sink, C: Connections<FlowLaw>, G: Gate>(
    rt: &R,
    alloc: Global,
    words: RunWords<'_>,
    files: &mut F,
    out: &mut O,
    conns: &C,
    pass: &mut C::Pass,
    gate: &G,
) -> Result<(), CommandFault>
    requires out { IsOut flow_law (C.fits conns.now) C.view pass.old }
    requires fresh { IsFresh (C.view pass.old) }
    requires workers { (1 ≤ words.workers) × (words.workers ≤ 64) }
    requires apart { IfSome words.expire (λ seconds. 0 < seconds) }
    ensures ends { (texts : List (List ℕ)) → SaysCommand texts (CommandType.Run words.entry) → EndsIn texts
        (moment (F.moment files.old) (O.moment out.old) (C.view pass.old)) (moment (F.moment files.new) (O.moment out.new) (C.view pass.new)) result }
    ensures files { (texts : List (List ℕ)) → SaysCommand texts (CommandType.Run words.entry)
        → KeepsOtherFiles texts (F.moment files.old).contents (F.moment files.new).contents }
    ensures out { IsOut flow_law (C.fits conns.now) C.view pass.new }
    ensures later { IsLater (C.view pass.old) (C.view pass.new) }
{
    let names = RunFiles {
        conf: words.conf,
        script: words.script,
        ifaces: words.ifaces,
        tap: tap_said(words.on, words.dir),
        every: words.expire,
    };
    let mut captures = Captures::new(alloc);
    let mut datagrams = DatagramBytes::new(alloc);
    let prepared = prepare_run(alloc, names, files, &mut captures)?;
    let interfaces = interface_names(alloc, &prepared.ifaces)?;
    let whole = put_together(rt, alloc, prepared, words.workers, &mut datagrams)?;
    load_connections(rt, alloc, words.load, &interfaces, files, conns, pass)?;
    run_prepared(rt, alloc, whole, words, files, out, conns, pass, gate)?;
    save_connections(rt, alloc, words.save, &interfaces, files, conns, pass)
}

// Plays what is prepared, puts the report, and writes what passed where the words name a file for it.
#[tactic(auto, using(crate::proofs::FileLemmas::keeps_itself, crate::proofs::FileLemmas::read_on))]
fn run_prepared<R: Threads + Wait + Sync, F: Files, O: Sink, C: Connections<FlowLaw>, G: Gate>(
    rt: &R,
    alloc: Global,
    prepared: Prepared<'_>,
    words: RunWords<'_>,
    files: &mut F,
    out: &mut O,
    conns: &C,
    pass: &mut C::Pass,
    gate: &G,
) -> Result<(), CommandFault>
    requires out { IsOut flow_law (C.fits conns.now) C.view pass.old }
    requires ready { MayBegin (C.view pass.old) }
    requires workers { (1 ≤ words.workers) × (words.workers ≤ 64) }
    requires playable { IsPlayable prepared }
    ensures done { OnOk result (FollowsPlan words.entry (run_plan_of prepared.entry) (C.view pass.old) (C.view pass.new) (O.moment out.old) (O.moment out.new) (F.moment files.new)) }
    ensures fails { IfErr result (FailsPlan words.entry (run_plan_of prepared.entry) (C.view pass.old) (C.view pass.new) (O.moment out.old) (O.moment out.new)
        (F.moment files.old) (F.moment files.new)) }
    ensures others { KeepsUnnamed (given_text words.entry.output) (F.moment files.old).contents (F.moment files.new).contents }
    ensures reads { HasReadOn (F.moment files.old) (F.moment files.new) }
    ensures faultless { OnOk result ((F.moment files.new).write_faults ≡ (F.moment files.old).write_faults) }
    ensures out { IsOut flow_law (C.fits conns.now) C.view pass.new }
    ensures later { IsLater (C.view pass.old) (C.view pass.new) }
{
    match words.output {
        None => {
            report_run(rt, alloc, prepared, words, out, conns, pass, gate)?;
            Ok(())
        }
        Some(name) => {
            let extents = ip_extents(alloc, prepared.packets.as_slice())?;
            let played = report_run(rt, alloc, prepared, words, out, conns, pass, gate)?;
            write_passed(alloc, name, extents.as_slice(), &played, files)
        }
    }
}

// Plays what is prepared, and puts the report.
fn report_run<'a, R: Threads + Wait + Sync, O: Sink, C: Connections<FlowLaw>, G: Gate>(
    rt: &R,
    alloc: Global,
    prepared: Prepared<'a>,
    words: RunWords<'_>,
    out: &mut O,
    conns: &C,
    pass: &mut C::Pass,
    gate: &G,
) -> Result<Played<'a>, CommandFault>
    requires out { IsOut flow_law (C.fits conns.now) C.view pass.old }
    requires ready { MayBegin (C.view pass.old) }
    requires workers { (1 ≤ words.workers) × (words.workers ≤ 64) }
    requires playable { IsPlayable prepared }
    ensures played { IfOk result (λ played. PlaysPhases (run_plan_of prepared.entry).configs words.entry.workers (spread_said words.entry.spread)
        (C.view pass.old) (C.view pass.new) prepared.entry.phases.items prepared.entry.packets.items played.packets played.outcomes) }
    ensures outputs { IfOk result (λ played. AreOutputsOf prepared.entry.packets.items played.outcomes played.packets) }
    ensures whole { IfOk result (λ played. Appends (O.moment out.old).held (O.moment out.new).held
        (report_text prepared.entry.ifaces.list prepared.entry.packets.items played.outcomes)) }
    ensures flushed { OnOk result ((O.moment out.new).waiting ≡ 0) }
    ensures fails { IfErr result (FailsReport (run_plan_of prepared.entry) words.entry.workers (spread_said words.entry.spread)
        (C.view pass.old) (C.view pass.new) (O.moment out.old) (O.moment out.new)) }
    ensures out { IsOut flow_law (C.fits conns.now) C.view pass.new }
    ensures later { IsLater (C.view pass.old) (C.view pass.new) }
{
    let Prepared {
        ifaces,
        configs,
        packets,
        phases,
    } = prepared;
    let spread = spread_of(words.spread);
    let phases = phases.as_slice();
    let configs = configs.as_slice();
    let workers = words.workers;
    let played = play(
        rt, alloc, packets, phases, configs, workers, spread, conns, pass, gate,
    )?;
    let Played { outcomes, packets } = played;
    put_report(alloc, &ifaces, packets.as_slice(), outcomes.as_slice(), out)?;
    Ok(Played { outcomes, packets })
}

fn spread_of(word: SpreadWord) -> Spread
    ensures { result ≡ spread_said word }
{
    match word {
        SpreadWord::Rr => Spread::Rr,
        SpreadWord::Flow => Spread::Flow,
    }
}

// Writes the packets that passed to the file of this name.
fn write_passed<F: Files>(
    alloc: Global,
    name: &str,
    extents: &[IpExtent],
    played: &Played<'_>,
    files: &mut F,
) -> Result<(), CommandFault>
    requires extents { length extents.now ≡ length played.now.packets }
    requires outcomes { length played.now.outcomes ≡ length played.now.packets }
    requires ends { All EndsInPacket extents.now }
    requires timely { All HasCaptureTime played.now.packets }
    ensures written { (packets : List PacketType) → AreExtentsOf packets extents.now → AreOutputsOf packets played.now.outcomes played.now.packets
        → OnOk result (IsWrittenTo (F.moment files.new) packets played.now.packets played.now.outcomes name.now) }
    ensures faultless { OnOk result ((F.moment files.new).write_faults ≡ (F.moment files.old).write_faults) }
    ensures fails { IfErr result (IsUnwritten (F.moment files.old) (F.moment files.new) name.now) }
    ensures others { SameOthers (F.moment files.old).contents (F.moment files.new).contents name.now }
    ensures reads { HasReadOn (F.moment files.old) (F.moment files.new) }
{
    let packets = played.packets.as_slice();
    let mut passed = PassedPackets::of(extents, packets, played.outcomes.as_slice());
    write_parts(alloc, name, &mut passed, files)
}

/// Where a capture alone was recorded, if an interface or a direction is said.
fn tap_said(on: Option<Name>, dir: Option<Dir>) -> Option<NamedTap>
    ensures { result ≡ tap_said on dir }
{
    let first = NamedTap::first();
    match (on, dir) {
        (None, None) => None,
        (Some(name), None) => Some(NamedTap {
            name,
            dir: first.dir,
        }),
        (None, Some(dir)) => Some(NamedTap {
            name: first.name,
            dir,
        }),
        (Some(name), Some(dir)) => Some(NamedTap { name, dir }),
    }
}
