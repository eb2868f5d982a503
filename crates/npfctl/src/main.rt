// npfctl: what a configuration of npf.conf(5) does to the packets of captures.
//
// `main` makes the table of connections while the file of a run's packets is read ahead, and hands the words of the
// command line, the files of the current folder and both standard streams to the top call of `npf_ctl`, whose contract
// says the rest.
#![tactic(auto)]

ghost use Rattle.std.specs.Prelude.{◌≡◌, ◌≤◌, Some};
ghost use Rattle.npf_ctl_words.specs.CommandLine.{name_in as name_said, word_texts};
ghost use Rattle.npf_ctl_words.specs.declared.command.CommandName.TheVariants.{Run as Running, Gen as Generating};

use npf_conndb::{Conns, Fnv};
use npf_ctl::npfctl_top;
use npf_ctl_words::{CommandName, Invocation, name_in, read_words};
use npf_flow::FlowLaw;
use npf_outside::{FolderFiles, StderrSink, StdoutSink};
use npf_runner::NoGate;
use npf_types::limits::{MAX_CAPTURE_BYTES, MAX_CONNECTIONS, MAX_NODES};
use std::alloc::{AllocError, Global};
use std::io::ErrorKind;
use std::process::ExitCode;
use std::thread::join;
use std::{env, mem};

/// How many connections a table may have at a time, and how many nodes for their keys.
struct TableSize {
    slots: u32,
    nodes: u32,
}

const MOST: TableSize = TableSize {
    slots: MAX_CONNECTIONS as u32,
    nodes: MAX_NODES as u32,
};

const LEAST: TableSize = TableSize {
    slots: 1,
    nodes: 16,
};

fn main(rt: HostRuntime) -> ExitCode {
    let Ok(words) = words(&rt) else {
        return ExitCode::FAILURE;
    };
    let alloc = rt.alloc();
    let TableSize { slots, nodes } = room_for(words.as_slice());
    let (made, mut files) = join(
        &rt,
        || Conns::<FlowLaw, Fnv>::new(alloc, slots, nodes),
        || files_of(&rt, alloc, words.as_slice()),
    );
    let Ok((conns, mut pass)) = made else {
        return ExitCode::FAILURE;
    };
    let mut out = StdoutSink::new(&rt);
    let mut err = StderrSink::new(&rt);
    let status = npfctl_top(
        &rt,
        alloc,
        words.as_slice(),
        &mut files,
        &mut out,
        &mut err,
        &conns,
        &mut pass,
        &NoGate,
    );
    // Its memory goes with the process; to drop it would let each of its slots go by itself.
    mem::forget(conns);
    ExitCode::from(status)
}

/// The room of the table: for a command that runs packets it is what the limits say. Any other asks the table nothing.
fn room_for(words: &[String]) -> TableSize
    ensures running { name_said (word_texts words.now) ≡ Some Running → (result.slots ≡ MAX_CONNECTIONS) × (result.nodes ≡ MAX_NODES) }
    ensures generating { name_said (word_texts words.now) ≡ Some Generating → (result.slots ≡ MAX_CONNECTIONS) × (result.nodes ≡ MAX_NODES) }
    ensures slots { (1 ≤ result.slots) × (result.slots ≤ 65536) }
    ensures nodes { (16 ≤ result.nodes) × (result.nodes ≤ 262144) }
{
    match name_in(words) {
        Some(CommandName::Run | CommandName::Gen) => MOST,
        _ => LEAST,
    }
}

/// The files of the current folder. The second file of a run, which has its packets or names them, is read ahead.
fn files_of<'a>(
    rt: &'a HostRuntime,
    alloc: Global,
    words: &[String],
) -> FolderFiles<'a, HostRuntime> {
    let mut files = FolderFiles::new(rt);
    if let Ok(Invocation::Run(run)) = read_words(alloc, words) {
        files.read_ahead(alloc, run.script, MAX_CAPTURE_BYTES as u64);
    }
    files
}

/// The words behind the program's name; none where one of them isn't UTF-8, which is no command
/// line.
fn words(rt: &HostRuntime) -> Result<Vec<String>, AllocError> {
    match env::args(rt) {
        Ok(args) => args.skip(1).collect(rt.alloc()),
        Err(error) if error.kind() == ErrorKind::OutOfMemory => Err(AllocError),
        Err(_) => Ok(Vec::new(rt.alloc())),
    }
}
