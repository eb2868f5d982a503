// What is told of all expectations.
ghost use Rattle.std.specs.Prelude.{◌≡◌, ◌<◌, ◌+◌, ◌^◌, ◌++◌, IfErr, IfOk, OnOk, option_map};
ghost use Rattle.npf_ruleset.specs.Configuration.{configuration};
ghost use Rattle.npf_ruleset.specs.Tables.{entries};
ghost use Rattle.npf_ctl_query.specs.QueryText.{IsStopFault};
ghost use Rattle.npf_ctl_check.specs.CheckText.{IsCheckText, counts_text};
ghost use Rattle.npf_ctl_check.specs.Told.{counts_line, unmet_text};

use crate::asked::AskedExpectations;
use crate::told::told_of;
use npf_ctl_class::{stop_fault, tables_of};
use npf_ctl_messages::CommandFault;
use npf_steps::{Steps, Stopped};
use npf_text::{write_bytes, write_counted, write_text};
use npf_types::{List, NoMemory, Prefix};
use std::alloc::Global;

/// What is told of a file of expectations, and how many of them aren't met.
#[derive(Debug, Drop)]
pub struct CheckAnswer {
    pub text: Vec<u8>,
    pub failed: u64,
}

/// Which of the expectations of the file of this name a configuration doesn't meet. The searches for all of them may take `most` steps, or
/// 2^64 - 2 where that is less.
///
/// # Errors
/// `CommandFault::Steps` where the searches want more, and want of memory.
pub fn check_expectations(
    alloc: Global,
    file: &str,
    asked: &AskedExpectations,
    most: u64,
) -> Result<CheckAnswer, CommandFault>
    ensures ok { IfOk result (λ told. IsCheckText file.now asked.now.ifaces.list (configuration asked.now.config) asked.now.expectations.items told.failed told.text.items) }
    ensures err { IfErr result (IsStopFault most) }
{
    let tables = tables_of(alloc, &asked.config)?;
    let mut steps = Steps::new(most);
    match told_all(alloc, file, asked, tables.as_slice(), &mut steps) {
        Ok(answer) => Ok(answer),
        Err(stopped) => Err(stop_fault(stopped, &steps)),
    }
}

fn told_all(
    alloc: Global,
    file: &str,
    asked: &AskedExpectations,
    tables: &[List<Prefix>],
    steps: &mut Steps,
) -> Result<CheckAnswer, Stopped>
    requires { tables.now ≡ entries asked.now.config.tables.items }
    ensures told { IfOk result (λ told. IsCheckText file.now asked.now.ifaces.list (configuration asked.now.config) asked.now.expectations.items told.failed told.text.items) }
    ensures most { steps.new.most ≡ steps.old.most }
{
    let mut answer = CheckAnswer {
        text: Vec::new(alloc),
        failed: 0,
    };
    for expectation in asked.expectations.as_slice() {
        let told = told_of(alloc, file, asked, tables, expectation, steps)?;
        add_told(&mut answer, told)?;
    }
    write_counts(
        &mut answer.text,
        asked.expectations.len() as u64,
        answer.failed,
    )?;
    Ok(answer)
}

/// Puts what is told of an expectation behind the others, and counts it, if it isn't met.
fn add_told(answer: &mut CheckAnswer, told: Option<Vec<u8>>) -> Result<(), NoMemory>
    requires { answer.old.failed + 1 < 2 ^ 64 }
    ensures text { OnOk result (answer.new.text.items ≡ answer.old.text.items ++ unmet_text (option_map (λ line. line.items) told)) }
    ensures failed { OnOk result (answer.new.failed ≡ answer.old.failed + counts_line (option_map (λ line. line.items) told)) }
{
    if let Some(line) = told {
        write_bytes(&mut answer.text, line.as_slice())?;
        answer.failed += 1;
    }
    Ok(())
}

fn write_counts(into: &mut Vec<u8>, expected: u64, failed: u64) -> Result<(), NoMemory>
    ensures { OnOk result (into.new.items ≡ into.old.items ++ counts_text expected failed) }
{
    write_counted(into, "checks ", expected)?;
    write_counted(into, " failed ", failed)?;
    write_text(into, "\n")
}
