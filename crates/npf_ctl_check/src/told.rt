// What is told of an expectation.
ghost use Rattle.std.specs.Prelude.{◌≡◌, ◌++◌, IfOk, IfSome, codes, option_map};
ghost use Rattle.npf_ruleset.specs.Configuration.{configuration};
ghost use Rattle.npf_ruleset.specs.Tables.{entries};
ghost use Rattle.npf_ctl_query.specs.QueryText.{IsDecider};
ghost use Rattle.npf_ctl_check.specs.CheckText.{TellsUnmet, place_text};
ghost use Rattle.npf_ctl_check.specs.First.{IsFoundFirst};
ghost use Rattle.npf_ctl_check.specs.Told.{against_text, without_text};

use crate::asked::AskedExpectations;
use crate::expectation::{Amount, Expectation};
use crate::first::{Decided, first_treating};
use npf_ctl_query::write_decider;
use npf_judge::ask;
use npf_model::Rule;
use npf_steps::{Steps, Stopped};
use npf_text::{write_bytes, write_counted, write_text};
use npf_types::{List, NoMemory, Prefix};
use std::alloc::Global;

/// What is told of an expectation of the file, None where it is met. The tables are those of the configuration.
pub(crate) fn told_of(
    alloc: Global,
    file: &str,
    asked: &AskedExpectations,
    tables: &[List<Prefix>],
    expectation: &Expectation,
    steps: &mut Steps,
) -> Result<Option<Vec<u8>>, Stopped>
    requires { tables.now ≡ entries asked.now.config.tables.items }
    ensures told { IfOk result (λ told. TellsUnmet file.now asked.now.ifaces.list (configuration asked.now.config) expectation.now (option_map (λ line. line.items) told)) }
    ensures most { steps.new.most ≡ steps.old.most }
{
    let Expectation {
        line,
        amount,
        wanted,
        class,
    } = expectation;
    match amount {
        Amount::Each => {
            let against = found_first(alloc, asked, tables, class, !wanted.wants_pass(), steps)?;
            let told = against_line(alloc, file, asked, *line, against)?;
            Ok(told)
        }
        Amount::One => {
            let found = found_first(alloc, asked, tables, class, wanted.wants_pass(), steps)?;
            let told = no_packet_line(alloc, file, *line, found)?;
            Ok(told)
        }
    }
}

/// The first decider that passes a packet of the class, or that blocks one, by what is asked for.
fn found_first(
    alloc: Global,
    asked: &AskedExpectations,
    tables: &[List<Prefix>],
    class: &Rule,
    passed: bool,
    steps: &mut Steps,
) -> Result<Option<Decided>, Stopped>
    requires { tables.now ≡ entries asked.now.config.tables.items }
    ensures first { IfOk result (IsFoundFirst (configuration asked.now.config) class.now passed) }
    ensures rule { IfOk result (λ found. IfSome found (λ decided. IsDecider asked.now.config.model decided.rule)) }
    ensures most { steps.new.most ≡ steps.old.most }
{
    let answer = ask(alloc, asked.config.model(), tables, class, steps)?;
    let found = first_treating(&asked.config, &answer, passed);
    Ok(found)
}

/// The line of the decider that is against an expectation, if there is one.
fn against_line(
    alloc: Global,
    file: &str,
    asked: &AskedExpectations,
    line: u32,
    against: Option<Decided>,
) -> Result<Option<Vec<u8>>, NoMemory>
    requires { IfSome against (λ decided. IsDecider asked.now.config.model decided.rule) }
    ensures { IfOk result (λ told. option_map (λ text. text.items) told ≡ option_map (against_text file.now asked.now.ifaces.list asked.now.config.model line) against) }
{
    let Some(decided) = against else {
        return Ok(None);
    };
    let mut text = placed(alloc, file, line)?;
    write_decider(
        alloc,
        &mut text,
        &asked.config,
        asked.ifaces.list.as_slice(),
        decided.rule,
        &decided.packet,
    )?;
    Ok(Some(text))
}

/// The line that says that there is no packet, if none was found.
fn no_packet_line(
    alloc: Global,
    file: &str,
    line: u32,
    found: Option<Decided>,
) -> Result<Option<Vec<u8>>, NoMemory>
    ensures { IfOk result (λ told. option_map (λ text. text.items) told ≡ without_text file.now line found) }
{
    if found.is_some() {
        return Ok(None);
    }
    let mut text = placed(alloc, file, line)?;
    write_text(&mut text, "no packet\n")?;
    Ok(Some(text))
}

/// The place of a line, as it stands before what is told of it.
fn placed(alloc: Global, file: &str, line: u32) -> Result<Vec<u8>, NoMemory>
    ensures { IfOk result (λ text. text.items ≡ place_text file.now line) }
{
    let mut text = Vec::new(alloc);
    write_bytes(&mut text, file.as_bytes())?;
    write_counted(&mut text, ":", u64::from(line))?;
    write_text(&mut text, ": ")?;
    Ok(text)
}
