// The first decider that treats a packet of a class in one way.
ghost use Rattle.std.specs.Prelude.{◌≡◌, ◌<◌, IfSome, Some, length};
ghost use Rattle.npf_model.specs.declared.rule.Rule.{Rule};
ghost use Rattle.npf_model.specs.Verdict.{all_rules};
ghost use Rattle.npf_ruleset.specs.Configuration.{configuration};
ghost use Rattle.npf_judge.specs.Deciders.{IsClassAnswer};
ghost use Rattle.npf_judge.specs.Says.{place_passes};
ghost use Rattle.npf_ctl_query.specs.QueryText.{HasRules, IsDecider};
ghost use Rattle.npf_ctl_check.specs.First.{IsFoundFirst, ShowsNone, ShowsRule};

use npf_judge::Deciders;
use npf_products::CellPacket;
use npf_ruleset::Config;
use npf_types::Decision;

/// What decides on a packet: the rule at a place, or none.
#[derive(Clone, Copy)]
pub(crate) struct Decided {
    pub rule: Option<usize>,
    pub packet: CellPacket,
}

/// The first decider of an answer that passes its packet, or that blocks it, by what is asked for.
pub(crate) fn first_treating(config: &Config, answer: &Deciders, passed: bool) -> Option<Decided>
    requires { HasRules config.now answer.now }
    ensures first { (class : Rule) → IsClassAnswer (configuration config.now) class answer.now → IsFoundFirst (configuration config.now) class passed result }
    ensures rule { IfSome result (λ decided. IsDecider config.now.model decided.rule) }
{
    for place in 0..answer.rules.len() {
        if let Some(packet) = shown_for_rule(config, answer, passed, place) {
            return Some(Decided {
                rule: Some(place),
                packet,
            });
        }
    }
    shown_for_none(answer, passed)
}

/// The packet of the rule at a place, which must be in range, if the rule treats it so.
fn shown_for_rule(
    config: &Config,
    answer: &Deciders,
    passed: bool,
    place: usize,
) -> Option<CellPacket>
    requires { place < length (all_rules config.now.model.groups) }
    ensures { ShowsRule config.now.model answer.now.rules.items passed place result }
{
    if place_passes(config, place) == passed {
        answer.rule(place)
    } else {
        None
    }
}

/// The packet on which no rule decides, if such a one is treated so: it is blocked.
fn shown_for_none(answer: &Deciders, passed: bool) -> Option<Decided>
    ensures { ShowsNone answer.now.none passed result }
{
    if passed {
        return None;
    }
    match answer.none {
        Some(packet) => Some(Decided { rule: None, packet }),
        None => None,
    }
}

/// Whether the rule at a place, which must be in range, passes what it decides on.
fn place_passes(config: &Config, place: usize) -> bool
    requires { place < length (all_rules config.now.model.groups) }
    ensures { result ≡ place_passes config.now.model (Some place) }
{
    matches!(config.rule(place as u32).decision, Decision::Pass)
}
