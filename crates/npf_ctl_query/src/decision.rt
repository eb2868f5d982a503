// What a rule decides, in one word.
ghost use Rattle.std.specs.Prelude.{◌≡◌};
ghost use Rattle.npf_ctl_query.specs.Decision.{block_word, decision_word, pass_word};

use npf_model::{Rule, StateOpt};
use npf_types::{Decision, Return};

/// The word of what the rule decides.
pub fn rule_word(rule: &Rule) -> &'static str
    ensures { result.now ≡ decision_word rule.now.decision rule.now.state }
{
    match rule.decision {
        Decision::Pass => pass_word(rule.state),
        Decision::Block(answer) => block_word(answer),
    }
}

fn pass_word(state: StateOpt) -> &'static str
    ensures { result.now ≡ pass_word state }
{
    match state {
        StateOpt::Not => "pass",
        StateOpt::OnInterface => "pass-stateful",
        StateOpt::Everywhere => "pass-stateful-all",
    }
}

fn block_word(answer: Return) -> &'static str
    ensures { result.now ≡ block_word answer }
{
    match answer {
        Return::Nothing => "block",
        Return::Any => "block-return",
        Return::Rst => "block-return-rst",
        Return::Icmp => "block-return-icmp",
    }
}
