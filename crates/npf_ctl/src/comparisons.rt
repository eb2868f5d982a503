// The command that holds two configurations against each other.
ghost use Rattle.std.specs.Prelude.{◌≡◌, ℕ, List};
ghost use Rattle.npf_connections.specs.Pass.{Pass};
ghost use Rattle.npf_engine.specs.Histories.{FlowEntry};
ghost use Rattle.npf_outside.specs.Files.{SameFiles};
ghost use Rattle.npf_ctl_words.specs.CommandLine.{SaysCommand};
ghost use Rattle.npf_ctl_words.specs.declared.command.Invocation.TheVariants as command;
ghost use Rattle.npf_ctl.specs.Commands.{load_of_compare};
ghost use Rattle.npf_ctl.specs.Comparisons.{finding_of_same};
ghost use Rattle.npf_ctl.specs.Ends.{AnswersIn};
ghost use Rattle.npf_ctl.specs.Run.{moment};

use crate::findings::Finding;
use crate::questions::{QuestionAnswer, load_both, put_answer};
use npf_ctl_compare::{CompareAnswer, compare_loaded};
use npf_ctl_input::load_file;
use npf_ctl_messages::CommandFault;
use npf_ctl_words::{CompareWords, Load};
use npf_outside::{Files, Sink};
use std::alloc::Global;

/// Loads two configurations by the same interfaces, and puts where they differ, in one call.
pub(crate) fn compare<F: Files, O: Sink>(
    alloc: Global,
    words: CompareWords<'_>,
    files: &mut F,
    out: &mut O,
) -> Result<Finding, CommandFault>
    ensures ends { (texts : List (List ℕ)) (pass : Pass FlowEntry) → SaysCommand texts (command.Compare words.entry) → AnswersIn texts
        (moment (F.moment files.old) (O.moment out.old) pass) (moment (F.moment files.new) (O.moment out.new) pass) result }
    ensures files { SameFiles (F.moment files.old).contents (F.moment files.new).contents }
{
    let loaded = load_both(alloc, load_of_compare(words), files)?;
    let new = load_file(alloc, &loaded.ifaces, words.new, files)?;
    let told = compare_loaded(alloc, loaded.ifaces, loaded.config, new, words.steps)?;
    let answer = answer_of(told);
    put_answer(&answer, out)
}

/// What `compare` asks of.
fn load_of_compare<'a>(words: CompareWords<'a>) -> Load<'a>
    ensures { result ≡ load_of_compare words.entry }
{
    Load {
        conf: words.old,
        ifaces: words.ifaces,
    }
}

fn answer_of(told: CompareAnswer) -> QuestionAnswer
    ensures finding { result.finding ≡ finding_of_same told.same }
    ensures text { result.text.items ≡ told.text.items }
{
    QuestionAnswer {
        finding: finding_of_same(told.same),
        text: told.text,
    }
}

fn finding_of_same(same: bool) -> Finding
    ensures { result ≡ finding_of_same same }
{
    if same {
        Finding::Nothing
    } else {
        Finding::Something
    }
}
