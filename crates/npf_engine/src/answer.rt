// What becomes of a packet of IP. All are inlined, so that an answer's parts aren't copied from call to call.
//
// A packet is answered before its bytes are touched: an answer has the action and the change that rewrite it, and the bytes are written
// once the pass has left. So no function below has bytes to change, and an answer speaks of all bytes that may be sent.
ghost use Rattle.std.specs.Prelude.{◌≡◌, None, Some, false, is_some};
ghost use Rattle.npf_types.specs.declared.decision.Decision.TheVariants.{Block};
ghost use Rattle.npf_types.specs.declared.decision.Return.TheVariants.{Nothing};
ghost use Rattle.npf_engine.specs.Answer.{AnswersByConn, AnswersByQuoted, own_rewriting, taken_rewriting};
ghost use Rattle.npf_engine.specs.Explains.{by_conn, by_ruling, unkept};
ghost use Rattle.npf_engine.specs.Outcome.{passes, lacks_node};
ghost use Rattle.npf_engine.specs.Rules.{unchanged};

use crate::connection::Met;
use crate::outcome::Outcome;
use crate::rules::{Ruling, UNCHANGED};
use npf_core::ConnId;
use npf_engine_opening::Refusal;
use npf_flow::FlowReply;
use npf_types::{Action, Change, Decision, Return};

/// Whose headers a change translates: those of the packet alone, or those of an error of ICMP and of the packet that it quotes.
#[derive(Clone, Copy, Debug, PartialEq, Eq)]
pub(crate) enum Translation {
    OfPacket,
    OfError,
}

/// What is done to a packet that is sent: it is normalised by the action and then translated by the change.
#[derive(Clone, Copy, Debug, PartialEq, Eq)]
pub(crate) struct Rewriting {
    pub(crate) action: Action,
    pub(crate) change: Change,
    pub(crate) translation: Translation,
}

/// A packet's outcome, and how it is rewritten where it passes.
#[derive(Clone, Copy, Debug, PartialEq, Eq)]
pub(crate) struct Answer {
    pub(crate) outcome: Outcome,
    pub(crate) rewriting: Option<Rewriting>,
}

impl Answer {
    /// The connection that holds the packet's key took it.
    #[inline(always)]
    pub(crate) fn by_conn(met: &Met) -> Answer
        ensures explains { AnswersByConn met.now result }
        ensures passes { passes result.outcome ≡ is_some result.rewriting }
        ensures lacks { lacks_node result.outcome ≡ false }
    {
        taken(met, Translation::OfPacket)
    }

    /// The connection whose packet this error quotes took it.
    #[inline(always)]
    pub(crate) fn by_quoted(met: &Met) -> Answer
        ensures explains { AnswersByQuoted met.now result }
        ensures passes { passes result.outcome ≡ is_some result.rewriting }
        ensures lacks { lacks_node result.outcome ≡ false }
    {
        taken(met, Translation::OfError)
    }

    /// No rule decides, and the packet is blocked.
    #[inline(always)]
    pub(crate) fn unruled(config: u64) -> Answer
        ensures outcome { result.outcome ≡ Outcome.ByRule (Block Nothing) None None config None }
        ensures rewriting { result.rewriting ≡ None }
    {
        Answer {
            outcome: Outcome::ByRule {
                config,
                rule: None,
                decision: Decision::Block(Return::Nothing),
                opened: None,
                log: None,
            },
            rewriting: None,
        }
    }

    /// A rule blocks the packet.
    #[inline(always)]
    pub(crate) fn blocked(config: u64, ruling: &Ruling) -> Answer
        ensures outcome { result.outcome ≡ by_ruling config ruling.now None }
        ensures rewriting { result.rewriting ≡ None }
    {
        Answer {
            outcome: by_ruling(config, ruling, None),
            rewriting: None,
        }
    }

    /// A rule passes the packet, which opened this connection or was to open none.
    #[inline(always)]
    pub(crate) fn passed(
        config: u64,
        ruling: &Ruling,
        opened: Option<ConnId>,
        change: Change,
    ) -> Answer
        ensures outcome { result.outcome ≡ by_ruling config ruling.now opened }
        ensures rewriting { result.rewriting ≡ Some (own_rewriting ruling.now.action change) }
    {
        Answer {
            outcome: by_ruling(config, ruling, opened),
            rewriting: Some(own_rewriting(ruling, change)),
        }
    }

    /// A rule passes the packet, which goes on without the connection that it was to open.
    #[inline(always)]
    pub(crate) fn unkept(config: u64, ruling: &Ruling, why: Refusal) -> Answer
        ensures outcome { result.outcome ≡ unkept config ruling.now why }
        ensures rewriting { result.rewriting ≡ Some (own_rewriting ruling.now.action unchanged) }
    {
        Answer {
            outcome: Outcome::Unkept {
                log: ruling.action.log,
                rule: ruling.place,
                config,
                why,
            },
            rewriting: Some(own_rewriting(ruling, UNCHANGED)),
        }
    }

    /// The packet can't be translated.
    #[inline(always)]
    pub(crate) fn dropped(config: u64, rule: u32, why: Refusal) -> Answer
        ensures outcome { result.outcome ≡ Outcome.Dropped rule config why }
        ensures rewriting { result.rewriting ≡ None }
    {
        Answer {
            outcome: Outcome::Dropped { rule, config, why },
            rewriting: None,
        }
    }
}

/// A connection took the packet, which is translated so where it passes.
#[inline(always)]
fn taken(met: &Met, translation: Translation) -> Answer
    ensures outcome { result.outcome ≡ by_conn met.now }
    ensures rewriting { result.rewriting ≡ taken_rewriting met.now.reply translation }
{
    let FlowReply {
        pass,
        opener,
        change,
        action,
    } = met.reply;
    let outcome = Outcome::ByConn {
        id: met.id,
        opener,
        place: met.place,
        pass,
        log: action.log,
    };
    let rewriting = if pass {
        Some(Rewriting {
            action,
            change,
            translation,
        })
    } else {
        None
    };
    Answer { outcome, rewriting }
}

/// A packet is rewritten by its rule's action and this change.
#[inline(always)]
fn own_rewriting(ruling: &Ruling, change: Change) -> Rewriting
    ensures { result ≡ own_rewriting ruling.now.action change }
{
    Rewriting {
        action: ruling.action,
        change,
        translation: Translation::OfPacket,
    }
}

/// The outcome of a packet on which a rule decided.
#[inline(always)]
fn by_ruling(config: u64, ruling: &Ruling, opened: Option<ConnId>) -> Outcome
    ensures { result ≡ by_ruling config ruling.now opened }
{
    Outcome::ByRule {
        config,
        rule: Some(ruling.place),
        decision: ruling.decision,
        opened,
        log: ruling.action.log,
    }
}
