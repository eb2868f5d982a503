// The command that holds a configuration against a file of expectations.
ghost use Rattle.std.specs.Prelude.{◌≡◌, ◌≤◌, ℕ, List, IfErr, IfOk, length};
ghost use Rattle.npf_connections.specs.Pass.{Pass};
ghost use Rattle.npf_engine.specs.Histories.{FlowEntry};
ghost use Rattle.npf_outside.specs.Files.{SameFiles};
ghost use Rattle.npf_ruleset.specs.Configuration.{configuration};
ghost use Rattle.npf_ctl_words.specs.CommandLine.{SaysCommand};
ghost use Rattle.npf_ctl_words.specs.declared.command.Invocation.TheVariants as command;
ghost use Rattle.npf_ctl.specs.Checks.{AnswersExpectationText, RefusesExpectationText, finding_of_count};
ghost use Rattle.npf_ctl.specs.Commands.{load_of_check};
ghost use Rattle.npf_ctl.specs.Ends.{AnswersIn};
ghost use Rattle.npf_ctl.specs.Run.{moment};

use crate::findings::Finding;
use crate::questions::{Loaded, QuestionAnswer, load_both, put_answer};
use npf_ctl_check::{check_expectations, read_asked_expectations};
use npf_ctl_input::read_file;
use npf_ctl_messages::CommandFault;
use npf_ctl_words::{CheckWords, Load};
use npf_outside::{Files, Sink};
use npf_types::limits::MAX_TEXT_BYTES;
use std::alloc::Global;

/// Loads a configuration and reads what is expected of it, and puts which expectations it doesn't meet, in one call.
pub(crate) fn check<F: Files, O: Sink>(
    alloc: Global,
    words: CheckWords<'_>,
    files: &mut F,
    out: &mut O,
) -> Result<Finding, CommandFault>
    ensures ends { (texts : List (List ℕ)) (pass : Pass FlowEntry) → SaysCommand texts (command.Check words.entry) → AnswersIn texts
        (moment (F.moment files.old) (O.moment out.old) pass) (moment (F.moment files.new) (O.moment out.new) pass) result }
    ensures files { SameFiles (F.moment files.old).contents (F.moment files.new).contents }
{
    let loaded = load_both(alloc, load_of_check(words), files)?;
    let text = read_file(alloc, words.expectations, MAX_TEXT_BYTES as u64, files)?;
    let answer = checked(alloc, words, text.as_slice(), loaded)?;
    put_answer(&answer, out)
}

/// What `check` loads.
fn load_of_check<'a>(words: CheckWords<'a>) -> Load<'a>
    ensures { result ≡ load_of_check words.entry }
{
    Load {
        conf: words.conf,
        ifaces: words.ifaces,
    }
}

/// The answer to a text of expectations, of at most `MAX_TEXT_BYTES` bytes.
fn checked(
    alloc: Global,
    words: CheckWords<'_>,
    text: &[u8],
    loaded: Loaded,
) -> Result<QuestionAnswer, CommandFault>
    requires { length text.now ≤ MAX_TEXT_BYTES }
    ensures ok { IfOk result (λ answer. AnswersExpectationText loaded.ifaces.list (configuration loaded.config) words.entry text.now answer.finding answer.text.items) }
    ensures err { IfErr result (RefusesExpectationText loaded.ifaces.list (configuration loaded.config) words.entry text.now) }
{
    let asked = read_asked_expectations(
        alloc,
        words.expectations,
        text,
        loaded.ifaces,
        loaded.config,
    )?;
    let told = check_expectations(alloc, words.expectations, &asked, words.steps)?;
    Ok(QuestionAnswer {
        finding: finding_of_count(told.failed),
        text: told.text,
    })
}

fn finding_of_count(failed: u64) -> Finding
    ensures { result ≡ finding_of_count failed }
{
    if failed == 0 {
        Finding::Nothing
    } else {
        Finding::Something
    }
}
