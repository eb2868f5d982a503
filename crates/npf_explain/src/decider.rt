// The rule that decides on a packet.
ghost use Rattle.std.specs.Prelude.{◌≡◌, IfOk, find};
ghost use Rattle.npf_model.specs.Configuration.{verdict_of};
ghost use Rattle.npf_ruleset.specs.Configuration.{configuration};
ghost use Rattle.npf_explain.specs.Asked.{HasTablesOf, entry_meets};
ghost use Rattle.npf_explain.specs.Explanation.{decider_of};

use crate::asked::PacketAsked;
use npf_precedence::{RuleEntry, in_order};
use npf_ruleset::Config;
use npf_types::NoMemory;
use std::alloc::Global;

/// The place of a rule that decides, and whether it is `final`.
#[derive(Clone, Copy, Debug, PartialEq, Eq)]
pub(crate) struct Decider {
    pub(crate) place: usize,
    pub(crate) last: bool,
}

pub(crate) fn find_decider(
    alloc: Global,
    config: &Config,
    asked: &PacketAsked<'_>,
) -> Result<Option<Decider>, NoMemory>
    requires { HasTablesOf config.now asked.now }
    ensures { IfOk result (λ found. found ≡ decider_of config.now.model (verdict_of (configuration config.now) asked.now.facts.now asked.now.ifid asked.now.dir)) }
{
    let order = in_order(alloc, config.model().groups.as_slice())?;
    match first_match(order.as_slice(), asked) {
        Some(entry) => Ok(Some(Decider {
            place: entry.place,
            last: entry.rule.last,
        })),
        None => Ok(None),
    }
}

fn first_match<'a>(order: &[RuleEntry<'a>], asked: &PacketAsked<'_>) -> Option<RuleEntry<'a>>
    ensures { result ≡ find (entry_meets asked.now) order.now }
{
    order.iter().copied().find(|entry| asked.meets(entry))
}
