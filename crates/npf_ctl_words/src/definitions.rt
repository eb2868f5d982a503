// The definition of each command, as `clap` reads it.
ghost use Rattle.std.specs.Prelude.{◌≡◌, IfOk, codes, false};
ghost use Rattle.clap.specs.Words.{app_of, rule_of};
ghost use Rattle.npf_ctl_words.specs.Definitions.{definition_of, gen_command, loading_command};
ghost use Rattle.npf_ctl_words.specs.Definitions.{all_rule, check_command, compare_command, explain_command, lint_command, number_rule, option_rule, query_command, run_command};
ghost use Rattle.npf_ctl_words.specs.Definitions.{spread_rule, steps_rule, reasons_command, word_rule, workers_rule};

use crate::command::CommandName;
use clap::{Arg, ArgAction, Command, value_parser};
use std::alloc::{AllocError, Global};

/// The definition by which a command's words are read.
pub(crate) fn definition<'a>(alloc: Global, name: CommandName) -> Result<Command<'a>, AllocError>
    ensures { IfOk result (λ c. app_of c ≡ definition_of name) }
{
    match name {
        CommandName::Run => run(alloc),
        CommandName::Validate => loading(alloc, "validate"),
        CommandName::Show => loading(alloc, "show"),
        CommandName::Debug => loading(alloc, "debug"),
        CommandName::Why => why(alloc),
        CommandName::Explain => explain(alloc),
        CommandName::Query => query(alloc),
        CommandName::Check => check(alloc),
        CommandName::Lint => lint(alloc),
        CommandName::Compare => compare(alloc),
        CommandName::Gen => generating(alloc),
    }
}

fn run<'a>(alloc: Global) -> Result<Command<'a>, AllocError>
    ensures { IfOk result (λ c. app_of c ≡ run_command) }
{
    let command = Command::new(alloc, "run")
        .arg(word(alloc, "conf"))?
        .arg(word(alloc, "script"))?
        .arg(option(alloc, "ifaces"))?
        .arg(workers(alloc))?
        .arg(spread(alloc))?
        .arg(option(alloc, "on"))?
        .arg(option(alloc, "dir"))?
        .arg(option(alloc, "expire"))?
        .arg(option(alloc, "write"))?
        .arg(option(alloc, "load"))?
        .arg(option(alloc, "save"))?;
    Ok(command)
}

fn loading<'a>(alloc: Global, name: &'a str) -> Result<Command<'a>, AllocError>
    ensures { IfOk result (λ c. app_of c ≡ loading_command name.entry.now) }
{
    let command = Command::new(alloc, name)
        .arg(word(alloc, "conf"))?
        .arg(option(alloc, "ifaces"))?;
    Ok(command)
}

fn why<'a>(alloc: Global) -> Result<Command<'a>, AllocError>
    ensures { IfOk result (λ c. app_of c ≡ reasons_command) }
{
    let command = loading(alloc, "why")?.arg(all(alloc))?;
    Ok(command)
}

fn explain<'a>(alloc: Global) -> Result<Command<'a>, AllocError>
    ensures { IfOk result (λ c. app_of c ≡ explain_command) }
{
    let command = Command::new(alloc, "explain")
        .arg(word(alloc, "conf"))?
        .arg(word(alloc, "iface"))?
        .arg(word(alloc, "dir"))?
        .arg(word(alloc, "class"))?
        .arg(option(alloc, "ifaces"))?;
    Ok(command)
}

fn query<'a>(alloc: Global) -> Result<Command<'a>, AllocError>
    ensures { IfOk result (λ c. app_of c ≡ query_command) }
{
    let command = Command::new(alloc, "query")
        .arg(word(alloc, "conf"))?
        .arg(word(alloc, "class"))?
        .arg(option(alloc, "ifaces"))?
        .arg(steps(alloc))?;
    Ok(command)
}

fn check<'a>(alloc: Global) -> Result<Command<'a>, AllocError>
    ensures { IfOk result (λ c. app_of c ≡ check_command) }
{
    let command = Command::new(alloc, "check")
        .arg(word(alloc, "conf"))?
        .arg(word(alloc, "expectations"))?
        .arg(option(alloc, "ifaces"))?
        .arg(steps(alloc))?;
    Ok(command)
}

fn lint<'a>(alloc: Global) -> Result<Command<'a>, AllocError>
    ensures { IfOk result (λ c. app_of c ≡ lint_command) }
{
    let command = Command::new(alloc, "lint")
        .arg(word(alloc, "conf"))?
        .arg(option(alloc, "ifaces"))?
        .arg(steps(alloc))?;
    Ok(command)
}

fn compare<'a>(alloc: Global) -> Result<Command<'a>, AllocError>
    ensures { IfOk result (λ c. app_of c ≡ compare_command) }
{
    let command = Command::new(alloc, "compare")
        .arg(word(alloc, "old"))?
        .arg(word(alloc, "new"))?
        .arg(option(alloc, "ifaces"))?
        .arg(steps(alloc))?;
    Ok(command)
}

fn generating<'a>(alloc: Global) -> Result<Command<'a>, AllocError>
    ensures { IfOk result (λ c. app_of c ≡ gen_command) }
{
    let command = Command::new(alloc, "gen").arg(number(alloc))?;
    Ok(command)
}

fn word<'a>(alloc: Global, id: &'a str) -> Arg<'a>
    ensures rule { rule_of result ≡ word_rule id.entry.now }
    ensures local { result.global ≡ false }
{
    Arg::new(alloc, id).required(true).action(ArgAction::Set)
}

fn option<'a>(alloc: Global, id: &'a str) -> Arg<'a>
    ensures rule { rule_of result ≡ option_rule id.entry.now }
    ensures local { result.global ≡ false }
{
    Arg::new(alloc, id).long(id).action(ArgAction::Set)
}

fn workers<'a>(alloc: Global) -> Arg<'a>
    ensures rule { rule_of result ≡ workers_rule }
    ensures local { result.global ≡ false }
{
    option(alloc, "workers")
        .value_parser(value_parser!(u32).range(1..65))
        .default_value("1")
}

fn spread<'a>(alloc: Global) -> Arg<'a>
    ensures rule { rule_of result ≡ spread_rule }
    ensures local { result.global ≡ false }
{
    option(alloc, "spread").default_value("rr")
}

fn all<'a>(alloc: Global) -> Arg<'a>
    ensures rule { rule_of result ≡ all_rule }
    ensures local { result.global ≡ false }
{
    Arg::new(alloc, "all")
        .long("all")
        .action(ArgAction::SetTrue)
}

fn steps<'a>(alloc: Global) -> Arg<'a>
    ensures rule { rule_of result ≡ steps_rule }
    ensures local { result.global ≡ false }
{
    option(alloc, "steps")
        .value_parser(value_parser!(u64))
        .default_value("1000000000")
}

fn number<'a>(alloc: Global) -> Arg<'a>
    ensures rule { rule_of result ≡ number_rule }
    ensures local { result.global ≡ false }
{
    word(alloc, "number").value_parser(value_parser!(u64))
}
