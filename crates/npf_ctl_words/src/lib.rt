// The words of the command line: eleven commands, each read by `clap` as one simple command without
// subcommands (docs/npfctl.8, "The command line", has them).
//
// The contract: words are refused exactly where the first is missing or names no command, byte for
// byte, where `clap`'s definition of that command refuses the words behind it, or where a run's
// spread is neither `rr` nor `flow`, a direction neither `in` nor `out`, an interface no name, or the
// seconds between expiries no number from 1 to 4294967295; words that ask for help or a version are refused. What is read is what `clap`'s own matches say: each file
// as it is written, the workers from 1 to 64, the spread and the direction by their names. Only want of memory comes besides. Words say one command at most (`laws`).
#![tactic(auto)]

mod command;
mod command_line;
mod definitions;
mod fault;
pub mod laws;

pub use command::{
    CheckWords, CommandName, CompareWords, ExplainWords, Invocation, LintWords, Load, QueryWords,
    RunWords, SpreadWord,
};
pub use command_line::{name_in, read_words};
pub use fault::WordsFault;
