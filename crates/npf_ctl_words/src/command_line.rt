// The command that a list of words says. The first word is compared before `clap` is asked, so that one which names no command is refused
// whether there is memory or not.
ghost use Rattle.std.specs.Prelude.{◌≡◌, ◌≤◌, ◌<◌, ◌&&◌, IfOk, IfSome, IsErrOf, IsNone, None, Some, codes, false, is_some, option_map, pos, true};
ghost use Rattle.clap.specs.Words.{IsSignedIn, IsUnsignedIn, first_of, found_of, rows_of};
ghost use Rattle.npf_ctl_words.specs.CommandLine.{SaysCommand, TellsCheck, TellsCommand, TellsCompare, TellsExplain, TellsLint, TellsLoad, TellsNumber, TellsQuery, TellsRun};
ghost use Rattle.npf_ctl_words.specs.CommandLine.{asks_all, command_name, command_named, dir_in, dir_named, expire_in, iface_in, iface_named, is_command_line};
ghost use Rattle.npf_ctl_words.specs.CommandLine.{knows_names, name_in, seconds_named, signed_number, spread_in, spread_named, takes_words, tap_dir_in, tap_iface_in, word_texts};
ghost use Rattle.npf_ctl_words.specs.Definitions.{check_command, compare_command, definition_of, explain_command, gen_command, lint_command, query_command, run_command};
ghost use Rattle.npf_ctl_words.specs.Values.{HasEachValue, IsMatched};
ghost use Rattle.npf_ctl_words.specs.declared.command.CommandName.TheVariants.{Why};

use crate::command::{
    CheckWords, CommandName, CompareWords, ExplainWords, Invocation, LintWords, Load, QueryWords,
    RunWords, SpreadWord,
};
use crate::definitions::definition;
use crate::fault::WordsFault;
use clap::ArgMatches;
use clap::error::ErrorKind;
use npf_types::{Dir, Name};
use std::alloc::Global;

/// The command that the words say, without the program's name before them.
///
/// # Errors
///
/// `Usage` exactly where the first word is missing or names no command, `clap`'s definition of the
/// command refuses the words behind it, a run's spread is neither `rr` nor `flow`, a direction is
/// neither `in` nor `out`, an interface is no name, or the seconds between expiries are no number from 1 to
/// 4294967295; words that ask for help or a version are refused. `NoMemory` where memory runs out.
#[tactic(auto, using(crate::proofs::SayLemmas::refused_unnamed, crate::proofs::SayLemmas::refused_words, crate::proofs::SayLemmas::refused_names, crate::proofs::SayLemmas::says))]
pub fn read_words<'a>(alloc: Global, words: &'a [String]) -> Result<Invocation<'a>, WordsFault>
    ensures read { IfOk result (SaysCommand (word_texts words.entry.now)) }
    ensures refused { IsErrOf result WordsFault.Usage → is_command_line (word_texts words.entry.now) ≡ false }
    ensures unnamed { name_in (word_texts words.entry.now) ≡ None → IsErrOf result WordsFault.Usage }
{
    let Some(name) = name_in(words) else {
        return Err(WordsFault::Usage);
    };
    let matches = match matched(alloc, name, words) {
        Ok(matches) => matches,
        Err(fault) => return Err(fault),
    };
    match command_of(name, &matches) {
        Some(command) => Ok(command),
        None => Err(WordsFault::Usage),
    }
}

/// The command that the first word names; the words behind it may still be refused.
pub fn name_in(words: &[String]) -> Option<CommandName>
    ensures { result ≡ name_in (word_texts words.now) }
{
    match words {
        [] => None,
        [first, ..] => named(first.as_str()),
    }
}

fn named(word: &str) -> Option<CommandName>
    ensures { result ≡ command_named word.now }
{
    match word {
        "run" => Some(CommandName::Run),
        "validate" => Some(CommandName::Validate),
        "show" => Some(CommandName::Show),
        "debug" => Some(CommandName::Debug),
        "why" => Some(CommandName::Why),
        "explain" => Some(CommandName::Explain),
        "query" => Some(CommandName::Query),
        "check" => Some(CommandName::Check),
        "lint" => Some(CommandName::Lint),
        "compare" => Some(CommandName::Compare),
        "gen" => Some(CommandName::Gen),
        _ => None,
    }
}

/// What `clap` finds for the words of a command by its definition. It leaves out the first word.
fn matched<'a>(
    alloc: Global,
    name: CommandName,
    words: &'a [String],
) -> Result<ArgMatches<'a>, WordsFault>
    ensures refused { IsErrOf result WordsFault.Usage → takes_words name (word_texts words.entry.now) ≡ false }
    ensures taken { IfOk result (λ _. takes_words name (word_texts words.entry.now) ≡ true) }
    ensures found { IfOk result (IsMatched (definition_of name) (word_texts words.entry.now)) }
{
    let command = definition(alloc, name)?;
    match command.try_get_matches_from(words) {
        Ok(matches) => Ok(matches),
        Err(error) => Err(match error.kind() {
            ErrorKind::OutOfMemory => WordsFault::NoMemory,
            _ => WordsFault::Usage,
        }),
    }
}

/// The command that the matches of its definition tell; None where a spread or a direction is unknown.
#[tactic(auto, using(crate::proofs::SayLemmas::known, crate::proofs::SayLemmas::needless))]
fn command_of<'a>(name: CommandName, matches: &ArgMatches<'a>) -> Option<Invocation<'a>>
    requires { HasEachValue (definition_of name) (rows_of (found_of matches.now)) }
    ensures known { knows_names name (rows_of (found_of matches.now)) ≡ is_some result }
    ensures name { IfSome result (λ c. command_name c ≡ name) }
    ensures told { IfSome result (TellsCommand (rows_of (found_of matches.now))) }
{
    match name {
        CommandName::Run => match run_of(matches) {
            Some(run) => Some(Invocation::Run(run)),
            None => None,
        },
        CommandName::Validate => Some(Invocation::Validate(load_of(matches))),
        CommandName::Show => Some(Invocation::Show(load_of(matches))),
        CommandName::Debug => Some(Invocation::Debug(load_of(matches))),
        CommandName::Why => Some(why_of(matches)),
        CommandName::Explain => match explain_of(matches) {
            Some(words) => Some(Invocation::Explain(words)),
            None => None,
        },
        CommandName::Query => Some(Invocation::Query(query_of(matches))),
        CommandName::Check => Some(Invocation::Check(check_of(matches))),
        CommandName::Lint => Some(Invocation::Lint(lint_of(matches))),
        CommandName::Compare => Some(Invocation::Compare(compare_of(matches))),
        CommandName::Gen => Some(Invocation::Gen {
            number: number_in(matches),
        }),
    }
}

#[tactic(auto, using(crate::proofs::SayLemmas::conf_of_run, crate::proofs::SayLemmas::script_of_run, crate::proofs::SayLemmas::workers_of_run, crate::proofs::SayLemmas::few_of_run, crate::proofs::SayLemmas::spread_of_run))]
fn run_of<'a>(matches: &ArgMatches<'a>) -> Option<RunWords<'a>>
    requires { HasEachValue run_command (rows_of (found_of matches.now)) }
    ensures known { (is_some (spread_in (rows_of (found_of matches.now))) && (is_some (tap_iface_in (rows_of (found_of matches.now))) && (is_some (tap_dir_in (rows_of (found_of matches.now))) && is_some (expire_in (rows_of (found_of matches.now)))))) ≡ is_some result }
    ensures told { IfSome result (TellsRun (rows_of (found_of matches.now))) }
{
    let Some(spread) = spread_named(value(matches, "spread")) else {
        return None;
    };
    let Some(on) = tap_iface(matches) else {
        return None;
    };
    let Some(dir) = tap_dir(matches) else {
        return None;
    };
    let Some(expire) = expire(matches) else {
        return None;
    };
    Some(RunWords {
        conf: value(matches, "conf"),
        script: value(matches, "script"),
        ifaces: given(matches, "ifaces"),
        workers: few_workers(value(matches, "workers")),
        spread,
        on,
        dir,
        expire,
        output: given(matches, "write"),
        load: given(matches, "load"),
        save: given(matches, "save"),
    })
}

/// The interface that `--on` names, if it is given; None where it names none.
fn tap_iface(matches: &ArgMatches) -> Option<Option<Name>>
    ensures { result ≡ tap_iface_in (rows_of (found_of matches.now)) }
{
    match given(matches, "on") {
        Some(text) => match iface_named(text) {
            Some(name) => Some(Some(name)),
            None => None,
        },
        None => Some(None),
    }
}

/// The direction that `--dir` names, if it is given; None where it names none.
fn tap_dir(matches: &ArgMatches) -> Option<Option<Dir>>
    ensures { result ≡ tap_dir_in (rows_of (found_of matches.now)) }
{
    match given(matches, "dir") {
        Some(text) => match dir_named(text) {
            Some(dir) => Some(Some(dir)),
            None => None,
        },
        None => Some(None),
    }
}

/// The seconds of `--expire`, at least 1, if it is given; None where its text is no such number.
fn expire(matches: &ArgMatches) -> Option<Option<u32>>
    ensures value { result ≡ expire_in (rows_of (found_of matches.now)) }
    ensures apart { IfSome result (λ given. IfSome given (λ seconds. 0 < seconds)) }
{
    match given(matches, "expire") {
        Some(text) => match seconds_named(text) {
            Some(seconds) => Some(Some(seconds)),
            None => None,
        },
        None => Some(None),
    }
}

fn load_of<'a>(matches: &ArgMatches<'a>) -> Load<'a>
    requires { is_some (first_of (codes "conf") (rows_of (found_of matches.now))) ≡ true }
    ensures { TellsLoad (rows_of (found_of matches.now)) result }
{
    Load {
        conf: value(matches, "conf"),
        ifaces: given(matches, "ifaces"),
    }
}

fn why_of<'a>(matches: &ArgMatches<'a>) -> Invocation<'a>
    requires { is_some (first_of (codes "conf") (rows_of (found_of matches.now))) ≡ true }
    ensures name { command_name result ≡ Why }
    ensures told { TellsCommand (rows_of (found_of matches.now)) result }
{
    let load = load_of(matches);
    if is_all(matches) {
        Invocation::WhyAll(load)
    } else {
        Invocation::Why(load)
    }
}

/// Whether `--all` is among the words.
fn is_all(matches: &ArgMatches) -> bool
    ensures { result ≡ asks_all (rows_of (found_of matches.now)) }
{
    match given(matches, "all") {
        Some(text) => text == "true",
        None => false,
    }
}

#[tactic(auto, using(crate::proofs::SayLemmas::conf_of_explain, crate::proofs::SayLemmas::iface_of_explain, crate::proofs::SayLemmas::dir_of_explain, crate::proofs::SayLemmas::class_of_explain))]
fn explain_of<'a>(matches: &ArgMatches<'a>) -> Option<ExplainWords<'a>>
    requires { HasEachValue explain_command (rows_of (found_of matches.now)) }
    ensures known { (is_some (iface_in (rows_of (found_of matches.now))) && is_some (dir_in (rows_of (found_of matches.now)))) ≡ is_some result }
    ensures told { IfSome result (TellsExplain (rows_of (found_of matches.now))) }
{
    let Some(iface) = iface_named(value(matches, "iface")) else {
        return None;
    };
    let Some(dir) = dir_named(value(matches, "dir")) else {
        return None;
    };
    Some(ExplainWords {
        conf: value(matches, "conf"),
        iface,
        dir,
        class: value(matches, "class"),
        ifaces: given(matches, "ifaces"),
    })
}

#[tactic(auto, using(crate::proofs::SayLemmas::conf_of_query, crate::proofs::SayLemmas::class_of_query, crate::proofs::SayLemmas::steps_of_query, crate::proofs::SayLemmas::in_range_of_query))]
fn query_of<'a>(matches: &ArgMatches<'a>) -> QueryWords<'a>
    requires { HasEachValue query_command (rows_of (found_of matches.now)) }
    ensures { TellsQuery (rows_of (found_of matches.now)) result }
{
    QueryWords {
        conf: value(matches, "conf"),
        class: value(matches, "class"),
        ifaces: given(matches, "ifaces"),
        steps: any_number(value(matches, "steps")),
    }
}

#[tactic(auto, using(crate::proofs::SayLemmas::conf_of_check, crate::proofs::SayLemmas::file_of_check, crate::proofs::SayLemmas::steps_of_check, crate::proofs::SayLemmas::in_range_of_check))]
fn check_of<'a>(matches: &ArgMatches<'a>) -> CheckWords<'a>
    requires { HasEachValue check_command (rows_of (found_of matches.now)) }
    ensures { TellsCheck (rows_of (found_of matches.now)) result }
{
    CheckWords {
        conf: value(matches, "conf"),
        expectations: value(matches, "expectations"),
        ifaces: given(matches, "ifaces"),
        steps: any_number(value(matches, "steps")),
    }
}

#[tactic(auto, using(crate::proofs::SayLemmas::conf_of_lint, crate::proofs::SayLemmas::steps_of_lint, crate::proofs::SayLemmas::in_range_of_lint))]
fn lint_of<'a>(matches: &ArgMatches<'a>) -> LintWords<'a>
    requires { HasEachValue lint_command (rows_of (found_of matches.now)) }
    ensures { TellsLint (rows_of (found_of matches.now)) result }
{
    LintWords {
        conf: value(matches, "conf"),
        ifaces: given(matches, "ifaces"),
        steps: any_number(value(matches, "steps")),
    }
}

#[tactic(auto, using(crate::proofs::SayLemmas::old_of_compare, crate::proofs::SayLemmas::new_of_compare, crate::proofs::SayLemmas::steps_of_compare, crate::proofs::SayLemmas::in_range_of_compare))]
fn compare_of<'a>(matches: &ArgMatches<'a>) -> CompareWords<'a>
    requires { HasEachValue compare_command (rows_of (found_of matches.now)) }
    ensures { TellsCompare (rows_of (found_of matches.now)) result }
{
    CompareWords {
        old: value(matches, "old"),
        new: value(matches, "new"),
        ifaces: given(matches, "ifaces"),
        steps: any_number(value(matches, "steps")),
    }
}

#[tactic(auto, using(crate::proofs::SayLemmas::number_of_gen, crate::proofs::SayLemmas::in_range_of_gen))]
fn number_in(matches: &ArgMatches) -> u64
    requires { HasEachValue gen_command (rows_of (found_of matches.now)) }
    ensures { TellsNumber (rows_of (found_of matches.now)) result }
{
    any_number(value(matches, "number"))
}

/// The value of an argument, if the words give one.
fn given<'a>(matches: &ArgMatches<'a>, id: &str) -> Option<&'a str>
    ensures { first_of id.now (rows_of (found_of matches.now)) ≡ option_map (λ text. text.now) result }
{
    matches.get_str(id)
}

/// The value of an argument that has one.
fn value<'a>(matches: &ArgMatches<'a>, id: &str) -> &'a str
    requires { is_some (first_of id.now (rows_of (found_of matches.now))) ≡ true }
    ensures { first_of id.now (rows_of (found_of matches.now)) ≡ Some result.now }
{
    given(matches, id).unwrap()
}

#[tactic(auto, using(crate::proofs::SayLemmas::few_digits))]
fn few_workers(text: &str) -> u32
    requires { IsSignedIn (pos 1) (pos 64) text.now }
    ensures number { result ≡ signed_number text.now }
    ensures some { 1 ≤ result }
    ensures few { result ≤ 64 }
{
    text.parse().unwrap()
}

fn any_number(text: &str) -> u64
    requires { IsUnsignedIn 0 18446744073709551615 text.now }
    ensures { result ≡ signed_number text.now }
{
    text.parse().unwrap()
}

/// The seconds that a text names.
fn seconds_named(text: &str) -> Option<u32>
    ensures value { result ≡ seconds_named text.now }
    ensures apart { IfSome result (λ seconds. 0 < seconds) }
{
    let Ok(seconds) = text.parse::<u32>() else {
        return None;
    };
    if seconds > 0 { Some(seconds) } else { None }
}

fn iface_named(text: &str) -> Option<Name>
    ensures { result ≡ iface_named text.now }
{
    Name::of(text.as_bytes())
}

fn dir_named(text: &str) -> Option<Dir>
    ensures { result ≡ dir_named text.now }
{
    match text {
        "in" => Some(Dir::In),
        "out" => Some(Dir::Out),
        _ => None,
    }
}

fn spread_named(text: &str) -> Option<SpreadWord>
    ensures { result ≡ spread_named text.now }
{
    match text {
        "rr" => Some(SpreadWord::Rr),
        "flow" => Some(SpreadWord::Flow),
        _ => None,
    }
}
