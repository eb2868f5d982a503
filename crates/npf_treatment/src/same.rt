// Whether two rules do the same.
ghost use Rattle.std.specs.Prelude.{◌≡◌, true, false};

use crate::rule::RuleEffect;
use npf_model::StateOpt;
use npf_types::{Action, Name, Return};

/// Whether what two rules do is the same.
pub fn is_same(one: &RuleEffect, other: &RuleEffect) -> bool
    ensures same { result ≡ true → one.now ≡ other.now }
    ensures other { result ≡ false → ¬ one.now ≡ other.now }
{
    match (one, other) {
        (
            RuleEffect::Blocked { answer, log },
            RuleEffect::Blocked {
                answer: other_answer,
                log: other_log,
            },
        ) => is_same_answer(*answer, *other_answer) && is_same_log(log, other_log),
        (
            RuleEffect::Passed { state, action },
            RuleEffect::Passed {
                state: other_state,
                action: other_action,
            },
        ) => is_same_state(*state, *other_state) && is_same_action(action, other_action),
        _ => false,
    }
}

fn is_same_answer(one: Return, other: Return) -> bool
    ensures same { result ≡ true → one ≡ other }
    ensures other { result ≡ false → ¬ one ≡ other }
{
    one == other
}

fn is_same_state(one: StateOpt, other: StateOpt) -> bool
    ensures same { result ≡ true → one ≡ other }
    ensures other { result ≡ false → ¬ one ≡ other }
{
    one == other
}

fn is_same_action(one: &Action, other: &Action) -> bool
    ensures same { result ≡ true → one.now ≡ other.now }
    ensures other { result ≡ false → ¬ one.now ≡ other.now }
{
    one.min_ttl == other.min_ttl
        && one.max_mss == other.max_mss
        && one.no_df == other.no_df
        && is_same_log(&one.log, &other.log)
}

fn is_same_log(one: &Option<Name>, other: &Option<Name>) -> bool
    ensures same { result ≡ true → one.now ≡ other.now }
    ensures other { result ≡ false → ¬ one.now ≡ other.now }
{
    match (one, other) {
        (Some(one), Some(other)) => is_same_name(one, other),
        _ => one.is_none() && other.is_none(),
    }
}

fn is_same_name(one: &Name, other: &Name) -> bool
    ensures same { result ≡ true → one.now ≡ other.now }
    ensures other { result ≡ false → ¬ one.now ≡ other.now }
{
    one == other
}
