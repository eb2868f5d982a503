// The top call of the program: its words, the files and both sinks, the table of connections, and the status.
ghost use Rattle.std.specs.Prelude.{◌≡◌, ◌⊎◌, ℕ, List, Result, Some, false, []};
ghost use Rattle.npf_connections.specs.Pass.{all_places};
ghost use Rattle.npf_connections.specs.Stay.{IsLater, IsOut};
ghost use Rattle.npf_flow.specs.Flows.{flow_law};
ghost use Rattle.npf_ctl_messages.specs.declared.fault.CommandFault.{CommandFault as FaultType};
ghost use Rattle.npf_ctl_messages.specs.Message.{status_of_fault};
ghost use Rattle.npf_outside.specs.Counts.{StoodStill};
ghost use Rattle.npf_outside.specs.Files.{SameFiles, Tree};
ghost use Rattle.npf_outside.specs.Sink.{Appends};
ghost use Rattle.npf_ctl_words.specs.CommandLine.{is_command_line, word_texts};
ghost use Rattle.npf_ctl_input.specs.File.{ReadsWell};
ghost use Rattle.npf_ctl.specs.declared.findings.Finding.TheVariants.{Nothing, Something};
ghost use Rattle.npf_ctl.specs.Ends.{AnswersIn, AnswersWords, EndsIn, IsFresh, SaysFault};
ghost use Rattle.npf_ctl.specs.Faults.{IsFaulted, LeavesFiles, PutsNoText};
ghost use Rattle.npf_ctl.specs.Findings.{IsDone};
ghost use Rattle.npf_ctl.specs.Run.{Moment, moment};
ghost use Rattle.npf_ctl.specs.Top.{HasStatus, CanDo, CanGenerate, DoesWords, IsQuiet, KeepsOtherFiles, MustRefuse, RanOutOfNodes};

use crate::checks::check;
use crate::comparisons::compare;
use crate::findings::Finding;
use crate::flushed::put_flushed;
use crate::generation::run_generated;
use crate::inspection::{ConfigText, look_at};
use crate::lints::lint;
use crate::questions::{ConfigQuestion, ask};
use crate::reasons::{WhichFaults, explain};
use crate::run::run;
use npf_connections::Connections;
use npf_ctl_messages::{CommandFault, message};
use npf_ctl_prepare_law::one_run;
use npf_ctl_words::laws::one_command;
use npf_ctl_words::{Invocation, WordsFault, read_words};
use npf_flow::FlowLaw;
use npf_outside::{Files, Sink, SinkFault};
use npf_runner::Gate;
use std::alloc::Global;
use std::sync::Wait;
use std::thread::Threads;

/// The exit status of the program: 0 where the work was done, 10 where it was and something was found, and otherwise that of the first fault met.
pub type Status = u8;

/// Does what the words ask; they leave out the program's name.
///
/// - `run CONF SCRIPT [--ifaces FILE] [--workers N] [--spread rr|flow] [--on IF] [--dir in|out] [--expire SECONDS] [--write FILE]
///   [--load FILE] [--save FILE]` runs the packets of a script's captures, or of a capture alone, through a configuration of npf.conf(5), and puts a line for each packet and the total line on `out`
/// - `validate CONF`, `show CONF` and `debug CONF`, each with `[--ifaces FILE]`, put the count of a configuration's rules, its canonical text, and
///   the programs of its rules
/// - `why CONF [--ifaces FILE] [--all]` puts what is to be said of a configuration's first fault on `out`, with `--all` also of each that is left
///   when what holds those before is taken out, and nothing where there is none
/// - `explain CONF IF in|out CLASS [--ifaces FILE]` puts how a configuration treats a packet of a class that passes there
/// - `query CONF CLASS [--ifaces FILE] [--steps N]` puts which of a configuration's rules decide on the packets of a class, each with such a packet
/// - `check CONF EXPECTATIONS [--ifaces FILE] [--steps N]` puts which expectations of a file a configuration doesn't meet, each with a packet
/// - `lint CONF [--ifaces FILE] [--steps N]` puts which of a configuration's rules decide on no packet, and without which every packet would be treated
///   alike, and which groups, tables and procedures do nothing
/// - `compare OLD NEW [--ifaces FILE] [--steps N]` puts which rules and maps of two configurations apply to one packet and don't ask the same of it, each
///   pair with such a packet, and which of their settings differ
/// - `gen NUMBER` runs the generated input of this number, and puts the total line
///
/// Where it is refused, the line of the first fault met is put on `err`. The table of connections is new, and `pass` is its first pass.
pub fn npfctl_top<
    R: Threads + Wait + Sync,
    F: Files,
    O: Sink,
    E: Sink,
    C: Connections<FlowLaw>,
    G: Gate,
>(
    rt: &R,
    alloc: Global,
    words: &[String],
    files: &mut F,
    out: &mut O,
    err: &mut E,
    conns: &C,
    pass: &mut C::Pass,
    gate: &G,
) -> Status
    requires out { IsOut flow_law (C.fits conns.now) C.view pass.old }
    requires places { (C.view pass.old).places ≡ all_places }
    requires first { (C.view pass.old).history ≡ [] }

    // 0: what the words say was done, and nothing was found that they ask for; 10: it was, and something was found, which a run never does. The output
    // is flushed, and nothing was put on the error sink.
    ensures done { result ≡ 0 → DoesWords (word_texts words.now) Nothing
        (moment (F.moment files.old) (O.moment out.old) (C.view pass.old)) (moment (F.moment files.new) (O.moment out.new) (C.view pass.new)) }
    ensures found { result ≡ 10 → DoesWords (word_texts words.now) Something
        (moment (F.moment files.old) (O.moment out.old) (C.view pass.old)) (moment (F.moment files.new) (O.moment out.new) (C.view pass.new)) }
    ensures flushed { IsDone result → (O.moment out.new).waiting ≡ 0 }
    ensures silent { IsDone result → Appends (E.moment err.old).held (E.moment err.new).held [] }

    // Any other status: that of the first fault met, with its cause, and its line was put.
    ensures faulted { ¬ IsDone result → IsFaulted (word_texts words.now)
        (moment (F.moment files.old) (O.moment out.old) (C.view pass.old)) (moment (F.moment files.new) (O.moment out.new) (C.view pass.new))
        (E.moment err.old) (E.moment err.new) result }

    // What must be refused is, for the fault that its files come to, and what can be done is, but for want of memory, or of a node for a
    // connection that is loaded. Told files never come to both (npf_ctl_prepare_law), so neither is asked for where the other is.
    ensures refuses_words { is_command_line (word_texts words.now) ≡ false → HasStatus 2 result }
    ensures refuses { (tree : Tree) (fault : FaultType) → (F.moment files.old).contents ≡ Some tree
        → MustRefuse (word_texts words.now) tree (C.view pass.old).slots fault
        → ReadsWell (F.moment files.old) (F.moment files.new) → HasStatus (status_of_fault fault) result }
    ensures complete { (tree : Tree) → (F.moment files.old).contents ≡ Some tree → CanDo (word_texts words.now) tree (C.view pass.old).slots
        → ReadsWell (F.moment files.old) (F.moment files.new)
        → StoodStill (O.moment out.old).faults (O.moment out.new).faults
        → StoodStill (F.moment files.old).write_faults (F.moment files.new).write_faults
        → HasStatus 0 result ⊎ RanOutOfNodes (C.view pass.old) (C.view pass.new) result }
    ensures complete_generated { CanGenerate (word_texts words.now)
        → StoodStill (O.moment out.old).faults (O.moment out.new).faults → HasStatus 0 result }

    // With 2, 3, 4, 6, 7, 8 and 9 nothing is put on the output but what `why` says of a fault, no file changes, and the table of connections is
    // asked nothing, unless it had no node for a connection that was to be loaded; with any status but 0 and 10 no file changes unless a write failed, or memory ran out at the second
    // of two files; and with any at all none but those that are to be written.
    ensures quiet { IsQuiet result → PutsNoText (word_texts words.now)
        (moment (F.moment files.old) (O.moment out.old) (C.view pass.old)) (moment (F.moment files.new) (O.moment out.new) (C.view pass.new)) }
    ensures same { IsQuiet result → SameFiles (F.moment files.old).contents (F.moment files.new).contents }
    ensures idle { IsQuiet result → (C.view pass.new ≡ C.view pass.old) ⊎ RanOutOfNodes (C.view pass.old) (C.view pass.new) result }
    ensures kept { ¬ IsDone result → LeavesFiles (word_texts words.now)
        (moment (F.moment files.old) (O.moment out.old) (C.view pass.old)) (moment (F.moment files.new) (O.moment out.new) (C.view pass.new)) result }
    ensures files { KeepsOtherFiles (word_texts words.now) (F.moment files.old).contents (F.moment files.new).contents }

    // The pass is outside again, owns all places, and has its number and slots; its history goes on, and its sweeps and its epoch don't fall.
    ensures out { IsOut flow_law (C.fits conns.now) C.view pass.new }
    ensures later { IsLater (C.view pass.old) (C.view pass.new) }
{
    one_command();
    npf_ctl_input::laws::contents_decide();
    npf_ctl_prepare::laws::contents_decide();
    one_run();
    answer(rt, alloc, words, files, out, err, conns, pass, gate)
}

// The status of the words, with the line of the fault put.
fn answer<R: Threads + Wait + Sync, F: Files, O: Sink, E: Sink, C: Connections<FlowLaw>, G: Gate>(
    rt: &R,
    alloc: Global,
    words: &[String],
    files: &mut F,
    out: &mut O,
    err: &mut E,
    conns: &C,
    pass: &mut C::Pass,
    gate: &G,
) -> Status
    requires out { IsOut flow_law (C.fits conns.now) C.view pass.old }
    requires fresh { IsFresh (C.view pass.old) }
    ensures answered { AnswersWords (word_texts words.now)
        (moment (F.moment files.old) (O.moment out.old) (C.view pass.old)) (moment (F.moment files.new) (O.moment out.new) (C.view pass.new))
        (E.moment err.old) (E.moment err.new) result }
    ensures files { KeepsOtherFiles (word_texts words.now) (F.moment files.old).contents (F.moment files.new).contents }
    ensures out { IsOut flow_law (C.fits conns.now) C.view pass.new }
    ensures later { IsLater (C.view pass.old) (C.view pass.new) }
{
    match do_words(rt, alloc, words, files, out, conns, pass, gate) {
        Ok(finding) => finding.status(),
        Err(fault) => say(alloc, &fault, err),
    }
}

// Does what the words ask, up to the first fault.
fn do_words<R: Threads + Wait + Sync, F: Files, O: Sink, C: Connections<FlowLaw>, G: Gate>(
    rt: &R,
    alloc: Global,
    words: &[String],
    files: &mut F,
    out: &mut O,
    conns: &C,
    pass: &mut C::Pass,
    gate: &G,
) -> Result<Finding, CommandFault>
    requires out { IsOut flow_law (C.fits conns.now) C.view pass.old }
    requires fresh { IsFresh (C.view pass.old) }
    ensures ends { AnswersIn (word_texts words.now)
        (moment (F.moment files.old) (O.moment out.old) (C.view pass.old)) (moment (F.moment files.new) (O.moment out.new) (C.view pass.new)) result }
    ensures files { KeepsOtherFiles (word_texts words.now) (F.moment files.old).contents (F.moment files.new).contents }
    ensures out { IsOut flow_law (C.fits conns.now) C.view pass.new }
    ensures later { IsLater (C.view pass.old) (C.view pass.new) }
{
    let command = match read_words(alloc, words) {
        Ok(command) => command,
        Err(WordsFault::Usage) => return Err(CommandFault::Usage),
        Err(WordsFault::NoMemory) => return Err(CommandFault::NoMemory),
    };
    match command {
        Invocation::Run(words) => plainly(run(rt, alloc, words, files, out, conns, pass, gate)),
        Invocation::Validate(load) => plainly(look_at(alloc, ConfigText::Count, load, files, out)),
        Invocation::Show(load) => plainly(look_at(alloc, ConfigText::Model, load, files, out)),
        Invocation::Debug(load) => {
            plainly(look_at(alloc, ConfigText::Programs, load, files, out))
        }
        Invocation::Why(load) => plainly(explain(alloc, WhichFaults::First, load, files, out)),
        Invocation::WhyAll(load) => plainly(explain(alloc, WhichFaults::Each, load, files, out)),
        Invocation::Explain(words) => ask(alloc, ConfigQuestion::Explain(words), files, out),
        Invocation::Query(words) => ask(alloc, ConfigQuestion::Query(words), files, out),
        Invocation::Check(words) => check(alloc, words, files, out),
        Invocation::Lint(words) => lint(alloc, words, files, out),
        Invocation::Compare(words) => compare(alloc, words, files, out),
        Invocation::Gen { number } => {
            plainly(run_generated(rt, alloc, number, out, conns, pass, gate))
        }
    }
}

// What a command that looks for nothing comes to.
fn plainly(done: Result<(), CommandFault>) -> Result<Finding, CommandFault>
    ensures { (words : List (List ℕ)) (before after : Moment) → EndsIn words before after done → AnswersIn words before after result }
{
    match done {
        Ok(()) => Ok(Finding::Nothing),
        Err(fault) => Err(fault),
    }
}

// Puts the line of the fault in one call, flushes it, and gives the fault's status. A failing error sink changes no status; want of memory
// for the line is want of memory.
#[tactic(auto, using(crate::proofs::FileLemmas::nothing_put))]
fn say<E: Sink>(alloc: Global, fault: &CommandFault, err: &mut E) -> Status
    ensures { SaysFault (E.moment err.old) (E.moment err.new) fault.now result }
{
    let Ok(line) = message(alloc, fault) else {
        return CommandFault::NoMemory.status();
    };
    match put_flushed(line.as_slice(), err) {
        Ok(()) | Err(SinkFault::Failed) => fault.status(),
        Err(SinkFault::NoMemory) => CommandFault::NoMemory.status(),
    }
}
