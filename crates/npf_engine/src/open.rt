// A packet that a rule passes, and what becomes of the connection that it is to open. All are inlined, as an answer is.
ghost use Rattle.std.specs.Prelude.{◌≡◌, ◌≤◌, ◌+◌, true, false, Some, [], is_some};
ghost use Rattle.npf_connections.specs.Said.{Does};
ghost use Rattle.npf_connections.specs.Stay.{IsIn};
ghost use Rattle.npf_flow.specs.Flows.{flow_law};
ghost use Rattle.npf_engine_opening.specs.declared.attempt.Opened.{Opened as IsOpened};
ghost use Rattle.npf_engine.specs.Answer.{AnswersRuled, AnswersTried, arrival_of};
ghost use Rattle.npf_engine.specs.Arrival.{arg_of};
ghost use Rattle.npf_engine.specs.Explains.{LacksConnection, Sight, WasFull};
ghost use Rattle.npf_engine.specs.Outcome.{lacks_node, passes};
ghost use Rattle.npf_engine.specs.Rules.{attempt_of};

use crate::answer::Answer;
use crate::connection::Met;
use crate::crossing::Crossing;
use crate::rules::{
    Mapping, Ruling, flow_settings, key_interface, opens_one, plan_of, static_change,
};
use npf_connections::Connections;
use npf_core::{Found, Stepped};
use npf_engine_opening::{Attempt, Opened, Refusal, open};
use npf_flow::{FlowArg, FlowLaw, FlowReply};
use npf_types::Decision;
use std::sync::Wait;

/// The rule that passes a packet, in the configuration of this number, and the map that translates it.
#[derive(Clone, Copy, Debug, PartialEq, Eq)]
pub(crate) struct Passed {
    pub(crate) config: u64,
    pub(crate) ruling: Ruling,
    pub(crate) mapping: Mapping,
}

/// What becomes of a packet that a rule passes: it opens a connection where it should.
#[inline(always)]
pub(crate) fn answer_passed<R: Wait, C: Connections<FlowLaw>>(
    rt: &R,
    conns: &C,
    pass: &mut C::Pass,
    crossing: &Crossing,
    arg: &FlowArg,
    passed: &Passed,
) -> Answer
    requires inside { IsIn flow_law (C.fits conns.now) C.view pass.old }
    requires idle { (C.view pass.old).builds ≡ [] }
    requires arg { arg.now ≡ arg_of crossing.now.time crossing.now.facts.now }
    requires decided { passed.now.ruling.decision ≡ Decision.Pass }
    ensures inside { IsIn flow_law (C.fits conns.now) C.view pass.new }
    ensures idle { (C.view pass.new).builds ≡ [] }
    ensures does { Does (C.view pass.old) (C.view pass.new) (AnswersRuled crossing.now passed.now.config passed.now.mapping (Some passed.now.ruling) result (C.view pass.old) (C.view pass.new)) }
    ensures passes { passes result.outcome ≡ is_some result.rewriting }
    ensures sweep { lacks_node result.outcome ≡ true → (C.view pass.old).sweeps + 1 ≤ (C.view pass.new).sweeps }
{
    if !opens_one(&passed.ruling, &passed.mapping) {
        let change = static_change(&passed.mapping);
        return Answer::passed(passed.config, &passed.ruling, None, change);
    }
    let attempt = attempt_of(crossing, arg, passed);
    let opened = open(rt, conns, pass, &attempt);
    answer_tried(passed, opened)
}

/// What the packet would open.
#[inline(always)]
fn attempt_of(crossing: &Crossing, arg: &FlowArg, passed: &Passed) -> Attempt
    requires { arg.now ≡ arg_of crossing.now.time crossing.now.facts.now }
    ensures { result ≡ attempt_of (arrival_of crossing.now) crossing.now.facts.now passed.now.ruling passed.now.mapping }
{
    Attempt {
        packet: crossing.number,
        facts: *crossing.facts,
        ifid: key_interface(passed.ruling.settings, passed.ruling.state, crossing.ifid),
        arg: *arg,
        settings: flow_settings(passed.ruling.settings),
        action: passed.ruling.action,
        plan: plan_of(&passed.mapping),
    }
}

/// What becomes of a packet that was to open a connection.
#[inline(always)]
fn answer_tried(passed: &Passed, opened: Opened) -> Answer
    requires decided { passed.now.ruling.decision ≡ Decision.Pass }
    ensures explains { (sight : Sight) → (opened ≡ Opened.Refused Refusal.Full → WasFull sight) → AnswersTried passed.now opened result sight }
    ensures passes { passes result.outcome ≡ is_some result.rewriting }
    ensures lacks { lacks_node result.outcome ≡ true → opened ≡ Opened.Refused Refusal.NoNode }
{
    match opened {
        Opened::Open { id, there } => {
            Answer::passed(passed.config, &passed.ruling, Some(id), there)
        }
        Opened::Known { holder, answer } => answer_known(passed, holder, answer),
        Opened::Refused(why) => answer_refused(passed, why),
    }
}

/// What becomes of a packet whose key has this holder, which was stepped: a live one takes it.
#[inline(always)]
fn answer_known(passed: &Passed, holder: Found, answer: Stepped<FlowReply>) -> Answer
    requires { passed.now.ruling.decision ≡ Decision.Pass }
    ensures explains { (sight : Sight) → AnswersTried passed.now (Opened.Known holder answer) result sight }
    ensures passes { passes result.outcome ≡ is_some result.rewriting }
    ensures lacks { lacks_node result.outcome ≡ false }
{
    match answer {
        Stepped::Done { reply, place } => Answer::by_conn(&Met {
            id: holder.id,
            reply,
            place,
        }),
        Stepped::NotLive => answer_refused(passed, Refusal::Taken(holder)),
    }
}

/// What becomes of a packet that has no connection: it is sent without translation where no map applies, and dropped where
/// one does.
#[inline(always)]
fn answer_refused(passed: &Passed, why: Refusal) -> Answer
    requires { passed.now.ruling.decision ≡ Decision.Pass }
    ensures explains { (sight : Sight) (opened : IsOpened) → LacksConnection sight opened why → AnswersTried passed.now opened result sight }
    ensures passes { passes result.outcome ≡ is_some result.rewriting }
    ensures lacks { lacks_node result.outcome ≡ true → why ≡ Refusal.NoNode }
{
    match passed.mapping {
        Mapping::Unmapped => Answer::unkept(passed.config, &passed.ruling, why),
        Mapping::Static { .. } | Mapping::Dynamic(_) => {
            Answer::dropped(passed.config, passed.ruling.place, why)
        }
    }
}
