// The commands that ask something of a configuration: of the packets of a class.
ghost use Rattle.std.specs.Prelude.{◌≡◌, ℕ, List, IfErr, IfOk, OnOk};
ghost use Rattle.npf_connections.specs.Pass.{Pass};
ghost use Rattle.npf_ctl_query.specs.QueryText.{IsStopFault};
ghost use Rattle.npf_ctl_words.specs.CommandLine.{SaysCommand};
ghost use Rattle.npf_engine.specs.Histories.{FlowEntry};
ghost use Rattle.npf_ctl_input.specs.Around.{Around};
ghost use Rattle.npf_ctl_output.specs.SinkText.{HasPutFault};
ghost use Rattle.npf_config.specs.Reading.{OnlyReads};
ghost use Rattle.npf_outside.specs.Files.{FilesMoment, SameFiles};
ghost use Rattle.npf_outside.specs.Sink.{Appends, AppendsFront};
ghost use Rattle.npf_ruleset.specs.Configuration.{configuration};
ghost use Rattle.npf_ctl.specs.Questions.{AnswersAsked, AnswersClass, LoadsBoth, RefusesClass, asking_command, class_text_of, finding_of_class};
ghost use Rattle.npf_ctl.specs.Questions.{finding_of_packet, loaded_of_question, own_of, steps_of};
ghost use Rattle.npf_ctl.specs.declared.questions.ConfigQuestion.{ConfigQuestion};
ghost use Rattle.npf_ctl.specs.Ends.{AnswersIn};
ghost use Rattle.npf_ctl.specs.Run.{moment};

use crate::findings::Finding;
use npf_ctl_asked::{AskedClass, read_asked};
use npf_ctl_class::stop_fault;
use npf_ctl_explain::{Passage, explain_text};
use npf_ctl_input::{load_file, read_interfaces};
use npf_ctl_messages::CommandFault;
use npf_ctl_output::put_text;
use npf_ctl_query::query_class;
use npf_ctl_words::{ExplainWords, Load, QueryWords};
use npf_judge::ClassSays;
use npf_model::{Ifaces, OnIf, number_of_name};
use npf_outside::{Files, Sink};
use npf_ruleset::Config;
use npf_steps::Steps;
use npf_types::Name;
use std::alloc::Global;

/// The most steps of a search that no word limits.
const MAX_STEPS: u64 = 1_000_000_000;

/// What is asked of a configuration.
#[derive(Clone, Copy, Debug, PartialEq, Eq)]
pub(crate) enum ConfigQuestion<'a> {
    /// How it treats one packet of a class.
    Explain(ExplainWords<'a>),
    /// Which of its rules decide on the packets of a class.
    Query(QueryWords<'a>),
}

/// A configuration, and the interfaces that were given with it.
#[derive(Drop)]
pub(crate) struct Loaded {
    pub ifaces: Ifaces,
    pub config: Config,
}

/// The text of an answer, and whether it says what the question looks for.
#[derive(Debug, Drop)]
pub(crate) struct QuestionAnswer {
    pub finding: Finding,
    pub text: Vec<u8>,
}

/// Loads a configuration, and puts the answer to what is asked of it, in one call.
pub(crate) fn ask<F: Files, O: Sink>(
    alloc: Global,
    question: ConfigQuestion<'_>,
    files: &mut F,
    out: &mut O,
) -> Result<Finding, CommandFault>
    ensures ends { (texts : List (List ℕ)) (pass : Pass FlowEntry) → SaysCommand texts (asking_command question.entry) → AnswersIn texts
        (moment (F.moment files.old) (O.moment out.old) pass) (moment (F.moment files.new) (O.moment out.new) pass) result }
    ensures files { SameFiles (F.moment files.old).contents (F.moment files.new).contents }
{
    let loaded = load_both(alloc, load_of(question), files)?;
    let answer = answer_to(alloc, question, loaded.ifaces, loaded.config)?;
    put_answer(&answer, out)
}

/// The configuration that a question is about, and the interfaces that were read with it.
pub(crate) fn load_both<F: Files>(
    alloc: Global,
    load: Load<'_>,
    files: &mut F,
) -> Result<Loaded, CommandFault>
    ensures loads { (before after : FilesMoment) → Around before (F.moment files.old) (F.moment files.new) after → LoadsBoth before after load.entry result }
    ensures reads { OnlyReads (F.moment files.old) (F.moment files.new) }
{
    let ifaces = read_interfaces(alloc, load.ifaces, files)?;
    let config = load_file(alloc, &ifaces, load.conf, files)?;
    Ok(Loaded { ifaces, config })
}

/// Puts an answer in one call, and flushes it. The fault is that of the output, or want of memory.
pub(crate) fn put_answer<O: Sink>(
    answer: &QuestionAnswer,
    out: &mut O,
) -> Result<Finding, CommandFault>
    ensures finding { IfOk result (λ found. found ≡ answer.now.finding) }
    ensures whole { OnOk result (Appends (O.moment out.old).held (O.moment out.new).held answer.now.text.items) }
    ensures flushed { OnOk result ((O.moment out.new).waiting ≡ 0) }
    ensures front { AppendsFront (O.moment out.old).held (O.moment out.new).held answer.now.text.items }
    ensures fault { IfErr result (HasPutFault (O.moment out.old).faults (O.moment out.new).faults) }
{
    put_text(answer.text.as_slice(), out)?;
    Ok(answer.finding)
}

/// What a question loads.
fn load_of<'a>(question: ConfigQuestion<'a>) -> Load<'a>
    ensures { result ≡ loaded_of_question question.entry }
{
    match question {
        ConfigQuestion::Explain(words) => Load {
            conf: words.conf,
            ifaces: words.ifaces,
        },
        ConfigQuestion::Query(words) => Load {
            conf: words.conf,
            ifaces: words.ifaces,
        },
    }
}

/// The answer to a question of a configuration, with the interfaces that were given.
fn answer_to(
    alloc: Global,
    question: ConfigQuestion<'_>,
    ifaces: Ifaces,
    config: Config,
) -> Result<QuestionAnswer, CommandFault>
    ensures ok { IfOk result (λ answer. AnswersClass ifaces.list (configuration config) (asking_command question.entry) answer.finding answer.text.items) }
    ensures err { IfErr result (RefusesClass ifaces.list (configuration config) (asking_command question.entry)) }
{
    let asked = read_asked(
        alloc,
        ifaces,
        config,
        own_name(question),
        class_text(question),
    )?;
    answer_asked(alloc, question, &asked)
}

/// The interface that a question names itself.
fn own_name(question: ConfigQuestion<'_>) -> Option<Name>
    ensures { result ≡ own_of question.entry }
{
    match question {
        ConfigQuestion::Explain(words) => Some(words.iface),
        ConfigQuestion::Query(_) => None,
    }
}

fn class_text<'a>(question: ConfigQuestion<'a>) -> &'a [u8]
    ensures { result.now ≡ class_text_of question.entry }
{
    match question {
        ConfigQuestion::Explain(words) => words.class.as_bytes(),
        ConfigQuestion::Query(words) => words.class.as_bytes(),
    }
}

/// The answer to a question whose class was read.
fn answer_asked(
    alloc: Global,
    question: ConfigQuestion<'_>,
    asked: &AskedClass,
) -> Result<QuestionAnswer, CommandFault>
    ensures ok { IfOk result (λ answer. AnswersAsked asked.now.ifaces.list (configuration asked.now.config) asked.now.class question.entry answer.finding answer.text.items) }
    ensures err { IfErr result (IsStopFault (steps_of question.entry)) }
{
    match question {
        ConfigQuestion::Explain(words) => explained(alloc, asked, words),
        ConfigQuestion::Query(words) => queried(alloc, asked, words),
    }
}

fn explained(
    alloc: Global,
    asked: &AskedClass,
    words: ExplainWords<'_>,
) -> Result<QuestionAnswer, CommandFault>
    ensures ok { IfOk result (λ answer. AnswersAsked asked.now.ifaces.list (configuration asked.now.config) asked.now.class (ConfigQuestion.Explain words.entry) answer.finding answer.text.items) }
    ensures err { IfErr result (IsStopFault MAX_STEPS) }
{
    let passage = Passage {
        on: OnIf {
            name: words.iface,
            id: number_of_name(asked.ifaces.list.as_slice(), &words.iface),
        },
        dir: words.dir,
    };
    let mut steps = Steps::new(MAX_STEPS);
    match explain_text(
        alloc,
        &asked.config,
        &asked.ifaces,
        &asked.class,
        passage,
        &mut steps,
    ) {
        Ok(explained) => Ok(QuestionAnswer {
            finding: finding_of_packet(explained.found),
            text: explained.text,
        }),
        Err(stopped) => Err(stop_fault(stopped, &steps)),
    }
}

fn queried(
    alloc: Global,
    asked: &AskedClass,
    words: QueryWords<'_>,
) -> Result<QuestionAnswer, CommandFault>
    ensures ok { IfOk result (λ answer. AnswersAsked asked.now.ifaces.list (configuration asked.now.config) asked.now.class (ConfigQuestion.Query words.entry) answer.finding answer.text.items) }
    ensures err { IfErr result (IsStopFault words.entry.steps) }
{
    let told = query_class(
        alloc,
        &asked.config,
        &asked.ifaces,
        &asked.class,
        words.steps,
    )?;
    Ok(QuestionAnswer {
        finding: finding_of_class(told.says),
        text: told.text,
    })
}

fn finding_of_packet(found: bool) -> Finding
    ensures { result ≡ finding_of_packet found }
{
    if found {
        Finding::Nothing
    } else {
        Finding::Something
    }
}

fn finding_of_class(says: ClassSays) -> Finding
    ensures { result ≡ finding_of_class says }
{
    match says {
        ClassSays::Pass => Finding::Nothing,
        ClassSays::Block | ClassSays::Both | ClassSays::Empty => Finding::Something,
    }
}
