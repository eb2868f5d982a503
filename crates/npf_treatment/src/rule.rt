// What a rule does.
ghost use Rattle.std.specs.Prelude.{◌≡◌, None, Some};
ghost use Rattle.npf_treatment.specs.Treatment.{rule_effect};

use npf_model::{Model, Rule, StateOpt};
use npf_proc::rule_action;
use npf_types::{Action, Decision, Name, Return};

/// What a rule does to the packets that it decides on (npf.conf(5), "Rules"): it blocks them, with what it answers to the sender and the
/// interface that its procedure logs to; or it passes them, keeps their connections or not, and has them normalised and logged.
#[derive(Clone, Copy, Debug, PartialEq, Eq)]
pub enum RuleEffect {
    Blocked { answer: Return, log: Option<Name> },
    Passed { state: StateOpt, action: Action },
}

/// What is done where no rule decides: the packet is blocked without an answer.
pub const NO_RULE: RuleEffect = RuleEffect::Blocked {
    answer: Return::Nothing,
    log: None,
};

/// What a rule of the model does.
pub fn rule_effect(model: &Model, rule: &Rule) -> RuleEffect
    ensures { result ≡ rule_effect model.now (Some rule.now) }
{
    let action = rule_action(model, rule);
    match rule.decision {
        Decision::Block(answer) => RuleEffect::Blocked {
            answer,
            log: action.log,
        },
        Decision::Pass => RuleEffect::Passed {
            state: rule.state,
            action,
        },
    }
}
