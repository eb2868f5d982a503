// What a command line says. File names stand as they are in the words.
use npf_types::{Dir, Name};

/// How a run deals its packets to its workers, as the word of `--spread` has it.
#[derive(Clone, Copy, Debug, PartialEq, Eq)]
pub enum SpreadWord {
    /// In turn, one packet to each.
    Rr,
    /// By addresses, ports and protocol, so that both ways of a flow that isn't translated go to one worker.
    Flow,
}

/// The eleven names of commands.
#[derive(Clone, Copy, Debug, PartialEq, Eq)]
pub enum CommandName {
    Run,
    Validate,
    Show,
    Debug,
    Why,
    Explain,
    Query,
    Check,
    Lint,
    Compare,
    Gen,
}

/// What `run` is to do.
#[derive(Clone, Copy, Debug, PartialEq, Eq)]
pub struct RunWords<'a> {
    /// The configuration's file.
    pub conf: &'a str,
    /// The script's file, or a capture's.
    pub script: &'a str,
    /// The file of the interfaces' addresses.
    pub ifaces: Option<&'a str>,
    /// How many workers inspect the packets, 1 to 64.
    pub workers: u32,
    /// How the packets are dealt to them.
    pub spread: SpreadWord,
    /// The file that the packets that pass are written to.
    pub output: Option<&'a str>,
    /// The interface that the packets of a capture alone passed on.
    pub on: Option<Name>,
    /// The direction that they passed in.
    pub dir: Option<Dir>,
    /// At multiples of how many seconds, at least 1, connections expire, if they do.
    pub expire: Option<u32>,
    /// The file of saved connections that are loaded before the run.
    pub load: Option<&'a str>,
    /// The file that the connections are saved to after the run.
    pub save: Option<&'a str>,
}

/// What the commands load that only look at a configuration.
#[derive(Clone, Copy, Debug, PartialEq, Eq)]
pub struct Load<'a> {
    /// The configuration's file.
    pub conf: &'a str,
    /// The file of the interfaces' addresses.
    pub ifaces: Option<&'a str>,
}

/// The packets that `explain` is asked about, one of which it explains.
#[derive(Clone, Copy, Debug, PartialEq, Eq)]
pub struct ExplainWords<'a> {
    /// The configuration's file.
    pub conf: &'a str,
    /// The interface that they pass on.
    pub iface: Name,
    /// The direction that they pass in.
    pub dir: Dir,
    /// What a rule says of them, without `pass` and `block`.
    pub class: &'a str,
    /// The file of the interfaces' addresses.
    pub ifaces: Option<&'a str>,
}

/// The packets that `query` is asked about.
#[derive(Clone, Copy, Debug, PartialEq, Eq)]
pub struct QueryWords<'a> {
    /// The configuration's file.
    pub conf: &'a str,
    /// What a rule says of them, without `pass` and `block`.
    pub class: &'a str,
    /// The file of the interfaces' addresses.
    pub ifaces: Option<&'a str>,
    /// The most steps that the search may take.
    pub steps: u64,
}

/// The expectations that `check` holds a configuration against.
#[derive(Clone, Copy, Debug, PartialEq, Eq)]
pub struct CheckWords<'a> {
    /// The configuration's file.
    pub conf: &'a str,
    /// The file of what is expected of it.
    pub expectations: &'a str,
    /// The file of the interfaces' addresses.
    pub ifaces: Option<&'a str>,
    /// The most steps that the searches for all of them may take.
    pub steps: u64,
}

/// The configuration that `lint` looks at.
#[derive(Clone, Copy, Debug, PartialEq, Eq)]
pub struct LintWords<'a> {
    /// The configuration's file.
    pub conf: &'a str,
    /// The file of the interfaces' addresses.
    pub ifaces: Option<&'a str>,
    /// The most steps that the search may take.
    pub steps: u64,
}

/// The configurations that `compare` holds against each other.
#[derive(Clone, Copy, Debug, PartialEq, Eq)]
pub struct CompareWords<'a> {
    /// The old configuration's file.
    pub old: &'a str,
    /// The new configuration's file.
    pub new: &'a str,
    /// The file of the interfaces' addresses.
    pub ifaces: Option<&'a str>,
    /// The most steps that the searches may take.
    pub steps: u64,
}

/// A command, with what its words say.
#[derive(Clone, Copy, Debug, PartialEq, Eq)]
pub enum Invocation<'a> {
    /// Runs a script's packets through a configuration, and reports what becomes of each.
    Run(RunWords<'a>),
    /// Loads a configuration, and says how many rules it has.
    Validate(Load<'a>),
    /// Loads a configuration, and prints its canonical text.
    Show(Load<'a>),
    /// Loads a configuration, and prints the program of each rule.
    Debug(Load<'a>),
    /// Loads a configuration, and explains its first fault.
    Why(Load<'a>),
    /// The same of each fault that is left when what holds those before is taken out.
    WhyAll(Load<'a>),
    /// Loads a configuration, and explains how it treats a packet.
    Explain(ExplainWords<'a>),
    /// Loads a configuration, and says which of its rules decide on packets.
    Query(QueryWords<'a>),
    /// Loads a configuration, and says which expectations it doesn't meet.
    Check(CheckWords<'a>),
    /// Loads a configuration, and says what in it does nothing.
    Lint(LintWords<'a>),
    /// Loads two configurations, and says which packets they would treat otherwise.
    Compare(CompareWords<'a>),
    /// Runs the generated input of this number.
    Gen { number: u64 },
}
