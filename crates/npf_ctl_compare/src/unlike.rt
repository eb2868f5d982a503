// In what two rules differ.
ghost use Rattle.std.specs.Prelude.{◌≡◌, codes, if◌then◌else◌};
ghost use Rattle.npf_ctl_compare.specs.Unlike.{is_same_answer, is_same_state, unlike_word};

use npf_model::StateOpt;
use npf_treatment::RuleEffect;
use npf_types::Return;

/// The word of the first in which what two rules do differs: whether they pass a packet, what they answer where they don't, how they keep its connection
/// where they do, and what their procedures do.
pub(crate) fn unlike_word(old: &RuleEffect, new: &RuleEffect) -> &'static str
    ensures { result.now ≡ unlike_word old.now new.now }
{
    match (old, new) {
        (RuleEffect::Blocked { answer, .. }, RuleEffect::Blocked { answer: other, .. }) => {
            blocked_word(*answer, *other)
        }
        (RuleEffect::Passed { state, .. }, RuleEffect::Passed { state: other, .. }) => {
            passed_word(*state, *other)
        }
        _ => "verdict",
    }
}

fn blocked_word(old: Return, new: Return) -> &'static str
    ensures { result.now ≡ (if is_same_answer old new then codes "procedure" else codes "answer") }
{
    match (old, new) {
        (Return::Nothing, Return::Nothing)
        | (Return::Any, Return::Any)
        | (Return::Rst, Return::Rst)
        | (Return::Icmp, Return::Icmp) => "procedure",
        _ => "answer",
    }
}

fn passed_word(old: StateOpt, new: StateOpt) -> &'static str
    ensures { result.now ≡ (if is_same_state old new then codes "procedure" else codes "state") }
{
    match (old, new) {
        (StateOpt::Not, StateOpt::Not)
        | (StateOpt::OnInterface, StateOpt::OnInterface)
        | (StateOpt::Everywhere, StateOpt::Everywhere) => "procedure",
        _ => "state",
    }
}
