// The rules of one configuration.
use npf_model::Model;
use npf_precedence::RuleEntry;
use npf_treatment::{NO_RULE, RuleEffect, rule_effect};
use npf_types::{List, Prefix};

/// The rules of a configuration in their order of precedence, with the place in it of each by its place in the order of inspection. Behind all stands none.
#[derive(Clone, Copy)]
pub(crate) struct RuleSide<'a> {
    pub model: &'a Model,
    pub tables: &'a [List<Prefix>],
    pub order: &'a [RuleEntry<'a>],
    pub at: &'a [usize],
}

impl RuleSide<'_> {
    ghost use Rattle.std.specs.Prelude.{◌≡◌, length};
    ghost use Rattle.npf_compare.specs.Side.{effect_at, place_in};

    /// What is done by the rule at this place of the order of precedence.
    pub fn effect(&self, at: usize) -> RuleEffect
        ensures { result ≡ effect_at self.now at }
    {
        match self.order.get(at) {
            Some(entry) => rule_effect(self.model, entry.rule),
            None => NO_RULE,
        }
    }

    /// The rule at this place of the order of inspection, which is none behind all.
    pub fn rule(&self, place: usize) -> Option<usize>
        ensures { result ≡ place_in self.now place }
    {
        if place < self.order.len() {
            return Some(place);
        }
        None
    }
}
