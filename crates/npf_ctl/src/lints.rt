// The command that looks for what of a configuration does nothing.
ghost use Rattle.std.specs.Prelude.{◌≡◌, ℕ, List};
ghost use Rattle.npf_connections.specs.Pass.{Pass};
ghost use Rattle.npf_engine.specs.Histories.{FlowEntry};
ghost use Rattle.npf_outside.specs.Files.{SameFiles};
ghost use Rattle.npf_ctl_words.specs.CommandLine.{SaysCommand};
ghost use Rattle.npf_ctl_words.specs.declared.command.Invocation.TheVariants as command;
ghost use Rattle.npf_ctl.specs.Commands.{load_of_lint};
ghost use Rattle.npf_ctl.specs.Ends.{AnswersIn};
ghost use Rattle.npf_ctl.specs.Questions.{finding_of_lint};
ghost use Rattle.npf_ctl.specs.Run.{moment};

use crate::findings::Finding;
use crate::questions::{QuestionAnswer, load_both, put_answer};
use npf_ctl_lint::{LintAnswer, lint_loaded};
use npf_ctl_messages::CommandFault;
use npf_ctl_words::{LintWords, Load};
use npf_outside::{Files, Sink};
use std::alloc::Global;

/// Loads a configuration, and puts what of it does nothing, in one call.
pub(crate) fn lint<F: Files, O: Sink>(
    alloc: Global,
    words: LintWords<'_>,
    files: &mut F,
    out: &mut O,
) -> Result<Finding, CommandFault>
    ensures ends { (texts : List (List ℕ)) (pass : Pass FlowEntry) → SaysCommand texts (command.Lint words.entry) → AnswersIn texts
        (moment (F.moment files.old) (O.moment out.old) pass) (moment (F.moment files.new) (O.moment out.new) pass) result }
    ensures files { SameFiles (F.moment files.old).contents (F.moment files.new).contents }
{
    let loaded = load_both(alloc, load_of_lint(words), files)?;
    let told = lint_loaded(alloc, loaded.ifaces, loaded.config, words.steps)?;
    let answer = answer_of(told);
    put_answer(&answer, out)
}

/// What `lint` loads.
fn load_of_lint<'a>(words: LintWords<'a>) -> Load<'a>
    ensures { result ≡ load_of_lint words.entry }
{
    Load {
        conf: words.conf,
        ifaces: words.ifaces,
    }
}

fn answer_of(told: LintAnswer) -> QuestionAnswer
    ensures finding { result.finding ≡ finding_of_lint told.found }
    ensures text { result.text.items ≡ told.text.items }
{
    QuestionAnswer {
        finding: finding_of_lint(told.found),
        text: told.text,
    }
}

fn finding_of_lint(found: bool) -> Finding
    ensures { result ≡ finding_of_lint found }
{
    if found {
        Finding::Something
    } else {
        Finding::Nothing
    }
}
