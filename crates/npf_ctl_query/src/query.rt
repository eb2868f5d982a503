// The question of a class.
ghost use Rattle.std.specs.Prelude.{IfOk, IfErr};
ghost use Rattle.npf_ruleset.specs.Configuration.{configuration};
ghost use Rattle.npf_judge.specs.Deciders.{IsClassAnswer};
ghost use Rattle.npf_ctl_query.specs.QueryText.{HasRules, IsClassText, IsStopFault, IsToldAnswer};

use crate::says::says_of;
use crate::text::answer_text;
use npf_ctl_class::{stop_fault, tables_of};
use npf_ctl_messages::CommandFault;
use npf_judge::{ClassSays, Deciders, ask};
use npf_model::{Ifaces, Rule};
use npf_ruleset::Config;
use npf_steps::Steps;
use npf_types::NoMemory;
use std::alloc::Global;

/// What is told of a class: the text, and what is said of the class as a whole, which the text ends with.
#[derive(Debug, Drop)]
pub struct ClassAnswer {
    pub text: Vec<u8>,
    pub says: ClassSays,
}

/// What a configuration does to the packets of a class, which are those that the class's rule describes; both are by the numbers of these
/// interfaces. The search may take `most` steps, or 2^64 - 2 where that is less.
///
/// # Errors
/// `CommandFault::Steps` where the search wants more, and want of memory.
pub fn query_class(
    alloc: Global,
    config: &Config,
    ifaces: &Ifaces,
    class: &Rule,
    most: u64,
) -> Result<ClassAnswer, CommandFault>
    ensures ok { IfOk result (λ told. IsClassText ifaces.now.list (configuration config.now) class.now told.says told.text.items) }
    ensures err { IfErr result (IsStopFault most) }
{
    let answer = asked(alloc, config, class, most)?;
    let told = told_answer(alloc, config, ifaces, &answer)?;
    Ok(told)
}

fn asked(alloc: Global, config: &Config, class: &Rule, most: u64) -> Result<Deciders, CommandFault>
    ensures ok { IfOk result (IsClassAnswer (configuration config.now) class.now) }
    ensures err { IfErr result (IsStopFault most) }
{
    let tables = tables_of(alloc, config)?;
    let mut steps = Steps::new(most);
    match ask(alloc, config.model(), tables.as_slice(), class, &mut steps) {
        Ok(answer) => Ok(answer),
        Err(stopped) => Err(stop_fault(stopped, &steps)),
    }
}

fn told_answer(
    alloc: Global,
    config: &Config,
    ifaces: &Ifaces,
    answer: &Deciders,
) -> Result<ClassAnswer, NoMemory>
    requires { HasRules config.now answer.now }
    ensures { IfOk result (λ told. IsToldAnswer ifaces.now.list (configuration config.now) answer.now told.says told.text.items) }
{
    let says = says_of(config, answer);
    let text = answer_text(alloc, config, ifaces, answer, says)?;
    Ok(ClassAnswer { text, says })
}
