// What becomes of the packet.
ghost use Rattle.std.specs.Prelude.{◌≡◌, ◌++◌, OnOk};
ghost use Rattle.npf_model.specs.Verdict.{rule_at};
ghost use Rattle.npf_show.specs.Piece.{spelled};
ghost use Rattle.npf_show.specs.Rule.{return_pieces, state_pieces};
ghost use Rattle.npf_ctl_explain.specs.Outcome.{decided_text, decision_text, translated_text, verdict_words};

use npf_ctl_query::write_ordinal;
use npf_model::{Rule, StateOpt};
use npf_ruleset::Config;
use npf_text::write_text;
use npf_types::{Decision, NoMemory, Return};

/// Appends what becomes of a packet on which the rule at this place decides, if one does, and which the map at that place translates, if one does.
pub(crate) fn write_verdict(
    into: &mut Vec<u8>,
    config: &Config,
    decider: Option<usize>,
    map: Option<u32>,
) -> Result<(), NoMemory>
    ensures { OnOk result (into.new.items ≡ into.old.items ++ verdict_words config.now.model decider map) }
{
    match decider {
        Some(place) => write_decided(into, config, place, map),
        None => write_text(into, "block none"),
    }
}

// Of a place that no rule has nothing is said.
fn write_decided(
    into: &mut Vec<u8>,
    config: &Config,
    place: usize,
    map: Option<u32>,
) -> Result<(), NoMemory>
    ensures { OnOk result (into.new.items ≡ into.old.items ++ decided_text place (rule_at config.now.model place) map) }
{
    if place >= config.rules().len() {
        return Ok(());
    }
    write_decision(into, place, config.rule(place as u32), map)
}

fn write_decision(
    into: &mut Vec<u8>,
    place: usize,
    rule: &Rule,
    map: Option<u32>,
) -> Result<(), NoMemory>
    ensures { OnOk result (into.new.items ≡ into.old.items ++ decision_text place rule.now.decision rule.now.state map) }
{
    match rule.decision {
        Decision::Pass => {
            write_text(into, "pass rule ")?;
            write_ordinal(into, place)?;
            write_text(into, state_words(rule.state))?;
            write_translated(into, map)
        }
        Decision::Block(answer) => {
            write_text(into, "block rule ")?;
            write_ordinal(into, place)?;
            write_text(into, return_words(answer))
        }
    }
}

fn state_words(state: StateOpt) -> &'static str
    ensures { result.now ≡ spelled (state_pieces state) }
{
    match state {
        StateOpt::Not => "",
        StateOpt::OnInterface => " stateful",
        StateOpt::Everywhere => " stateful-all",
    }
}

fn return_words(answer: Return) -> &'static str
    ensures { result.now ≡ spelled (return_pieces answer) }
{
    match answer {
        Return::Nothing => "",
        Return::Any => " return",
        Return::Rst => " return-rst",
        Return::Icmp => " return-icmp",
    }
}

fn write_translated(into: &mut Vec<u8>, map: Option<u32>) -> Result<(), NoMemory>
    ensures { OnOk result (into.new.items ≡ into.old.items ++ translated_text map) }
{
    let Some(place) = map else {
        return Ok(());
    };
    write_text(into, " map ")?;
    write_ordinal(into, place as usize)
}
