// The action that a procedure asks for.
ghost use Rattle.std.specs.Prelude.{◌≡◌};
ghost use Rattle.npf_proc.specs.Action.{action_of, no_action, procedure_action};

use npf_model::{Model, Procedure, Rule};
use npf_types::Action;

/// No procedure: nothing is normalised or logged.
const NO_ACTION: Action = Action {
    min_ttl: None,
    max_mss: None,
    no_df: false,
    log: None,
};

/// What a rule of the model has done to the packets that it passes: the action of its procedure, and nothing without one.
#[inline(always)]
pub fn rule_action(model: &Model, rule: &Rule) -> Action
    ensures { result ≡ action_of model.now rule.now }
{
    let Some(place) = rule.procedure else {
        return NO_ACTION;
    };
    match model.procedures.as_slice().get(place as usize) {
        Some(procedure) => procedure_action(procedure),
        None => NO_ACTION,
    }
}

// What a procedure does to a packet (npf.conf(5), "Procedures"): the options of its normalisation,
// and the interface that it logs to.
fn procedure_action(procedure: &Procedure) -> Action
    ensures { result ≡ procedure_action procedure.now }
{
    Action {
        min_ttl: procedure.min_ttl,
        max_mss: procedure.max_mss,
        no_df: procedure.no_df,
        log: procedure.log,
    }
}
