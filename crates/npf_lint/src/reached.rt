// What would be done without a rule that decides on some packet.
use crate::found::{Replacement, RuleFinding};
use crate::order::RuleOrder;
use npf_judge::decider_with;
use npf_precedence::RuleEntry;
use npf_products::CellPacket;
use npf_reach::Packets;
use npf_steps::{Steps, Stopped};
use npf_treatment::{NO_RULE, RuleEffect, is_same, rule_effect};
use std::alloc::Global;

impl<'a> RuleOrder<'a> {
    ghost use Rattle.std.specs.Prelude.{◌≡◌, ◌≤◌, ◌<◌, ◌+◌, ◌&&◌, ℕ, true, false, Option, IfOk, IfSome, IsErrOf, Ok, None, length, slice_get, option_copied};
    ghost use Rattle.std.specs.List.Sorted.{IsStrictlyIncreasing};
    ghost use Rattle.npf_types.specs.declared.direction.Dir.{Dir};
    ghost use Rattle.npf_types.specs.declared.facts.Facts.{Facts};
    ghost use Rattle.npf_types.specs.declared.interface.IfId.{IfId};
    ghost use Rattle.npf_steps.specs.Spent.{IsSpent};
    ghost use Rattle.npf_reach.specs.Kinds.{IsPacket};
    ghost use Rattle.npf_reach.specs.Packets.{IsOf, has_packet};
    ghost use Rattle.npf_judge.specs.Order.{is_first, meets_entry};
    ghost use Rattle.npf_judge.specs.Place.{HasRulePlaces};
    ghost use Rattle.npf_lint.specs.Order.{AreSuccessors, AreLeftAlike, AreOwn, IsFindingAt, IsLeftAt, IsOtherwise, IsRuleOrder, rules_behind, effect_by_entry};

    /// What is found of the rule at this place of the order, which decides on this packet.
    ///
    /// # Errors
    /// `Stopped::Spent` where the steps don't suffice, and want of memory.
    pub fn reached(
        &self,
        alloc: Global,
        at: usize,
        packet: CellPacket,
        steps: &mut Steps,
    ) -> Result<RuleFinding, Stopped>
        requires is { IsRuleOrder self.now.order.now self.now.packets }
        requires places { HasRulePlaces self.now.model.now self.now.order.now }
        requires within { at < length self.now.order.now }
        requires possible { IsPacket packet.facts packet.ifid }
        requires first { is_first (meets_entry self.now.packets.tables.now packet.facts packet.ifid packet.dir) self.now.order.now at ≡ true }
        ensures found { IfOk result (IsFindingAt self.now.model.now self.now.packets.tables.now self.now.order.now at) }
        ensures spent { IsErrOf result Stopped.Spent → IsSpent steps.new }
        ensures most { steps.new.most ≡ steps.old.most }
        ensures rises { steps.old.taken ≤ steps.new.taken }
    {
        let own = self.own(alloc, at, steps)?;
        if let Some(found) = self.otherwise(alloc, &own, at, steps)? {
            return Ok(RuleFinding::Reached(found));
        }
        let others = self.left_to(alloc, &own, at, steps)?;
        let rest = self.order.len() - at - 1;
        let none = self.left(alloc, &own, at, rest, steps)?.is_some();
        Ok(RuleFinding::Redundant(Replacement {
            packet,
            others,
            none,
        }))
    }

    /// The packets on which the rule at this place of the order decides.
    ///
    /// # Errors
    /// `Stopped::Spent` where the steps don't suffice, and want of memory.
    fn own(&self, alloc: Global, at: usize, steps: &mut Steps) -> Result<Packets<'a>, Stopped>
        requires is { IsRuleOrder self.now.order.now self.now.packets }
        requires within { at < length self.now.order.now }
        ensures own { IfOk result (AreOwn self.now.packets self.now.order.now at) }
        ensures spent { IsErrOf result Stopped.Spent → IsSpent steps.new }
        ensures most { steps.new.most ≡ steps.old.most }
        ensures rises { steps.old.taken ≤ steps.new.taken }
    {
        let place = decider_with(0, self.order.len(), at);
        let packets = self.packets.narrow(alloc, place, steps)?;
        Ok(packets)
    }

    /// One of these packets, on which the rule at the place `at` decides, that is left to what stands at the place `next` behind it; none exactly where
    /// there is none. The place behind all stands for no rule.
    ///
    /// # Errors
    /// `Stopped::Spent` where the steps don't suffice, and want of memory.
    fn left(
        &self,
        alloc: Global,
        own: &Packets<'a>,
        at: usize,
        next: usize,
        steps: &mut Steps,
    ) -> Result<Option<CellPacket>, Stopped>
        requires is { IsRuleOrder self.now.order.now self.now.packets }
        requires within { at + 1 + next ≤ length self.now.order.now }
        requires own { AreOwn self.now.packets self.now.order.now at own.now }
        ensures none { result ≡ Ok None → (packet : CellPacket) → ¬ IsLeftAt self.now.packets.tables.now self.now.order.now at next packet }
        ensures found { IfOk result (λ found. IfSome found (IsLeftAt self.now.packets.tables.now self.now.order.now at next)) }
        ensures spent { IsErrOf result Stopped.Spent → IsSpent steps.new }
        ensures most { steps.new.most ≡ steps.old.most }
        ensures rises { steps.old.taken ≤ steps.new.taken }
    {
        let place = decider_with(at + 1, self.order.len() - at - 1, next);
        let left = own.narrow(alloc, place, steps)?;
        left.packet(alloc, steps)
    }

    /// One of these packets that is treated otherwise without the rule at the place `at`, which decides on them; none exactly where there is none.
    ///
    /// # Errors
    /// `Stopped::Spent` where the steps don't suffice, and want of memory.
    fn otherwise(
        &self,
        alloc: Global,
        own: &Packets<'a>,
        at: usize,
        steps: &mut Steps,
    ) -> Result<Option<CellPacket>, Stopped>
        requires is { IsRuleOrder self.now.order.now self.now.packets }
        requires within { at < length self.now.order.now }
        requires own { AreOwn self.now.packets self.now.order.now at own.now }
        ensures none { result ≡ Ok None → AreLeftAlike self.now.model.now self.now.packets.tables.now self.now.order.now at (length (rules_behind self.now.order.now at) + 1) }
        ensures found { IfOk result (λ found. IfSome found (IsOtherwise self.now.model.now self.now.packets.tables.now self.now.order.now at)) }
        ensures spent { IsErrOf result Stopped.Spent → IsSpent steps.new }
        ensures most { steps.new.most ≡ steps.old.most }
        ensures rises { steps.old.taken ≤ steps.new.taken }
    {
        let effect = self.effect(at);
        for next in 0..self.order.len() - at {
            if !is_same(&self.effect(at + 1 + next), &effect) {
                let found = self.left(alloc, own, at, next, steps)?;
                if found.is_some() {
                    return Ok(found);
                }
            }
        }
        Ok(None)
    }

    /// The rules behind the place `at` to which some of these packets are left, on which the rule there decides: their places in the order of
    /// inspection, the lowest first.
    ///
    /// # Errors
    /// `Stopped::Spent` where the steps don't suffice, and want of memory.
    fn left_to(
        &self,
        alloc: Global,
        own: &Packets<'a>,
        at: usize,
        steps: &mut Steps,
    ) -> Result<Vec<usize>, Stopped>
        requires is { IsRuleOrder self.now.order.now self.now.packets }
        requires within { at < length self.now.order.now }
        requires own { AreOwn self.now.packets self.now.order.now at own.now }
        requires places { HasRulePlaces self.now.model.now self.now.order.now }
        ensures left { IfOk result (λ others. AreSuccessors self.now.packets.tables.now self.now.order.now at (length (rules_behind self.now.order.now at)) others.items) }
        ensures ascending { IfOk result (λ others. IsStrictlyIncreasing others.items) }
        ensures spent { IsErrOf result Stopped.Spent → IsSpent steps.new }
        ensures most { steps.new.most ≡ steps.old.most }
        ensures rises { steps.old.taken ≤ steps.new.taken }
    {
        let mut others = Vec::new(alloc);
        for next in 0..self.order.len() - at - 1 {
            if self.left(alloc, own, at, next, steps)?.is_some() {
                others.push(self.order[at + 1 + next].place)?;
            }
        }
        others.sort_unstable();
        Ok(others)
    }

    /// What is done by the rule at this place of the order, or behind all where none decides.
    fn effect(&self, at: usize) -> RuleEffect
        ensures { result ≡ effect_by_entry self.now.model.now (slice_get self.now.order.now at) }
    {
        match self.order.get(at) {
            Some(entry) => rule_effect(self.model, entry.rule),
            None => NO_RULE,
        }
    }
}
