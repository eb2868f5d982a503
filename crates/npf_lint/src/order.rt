// All packets, and the rules that decide on them.
use crate::found::RuleFinding;
use crate::products::alone;
use npf_judge::decider_with;
use npf_model::Model;
use npf_precedence::RuleEntry;
use npf_products::CellPacket;
use npf_reach::Packets;
use npf_steps::{Steps, Stopped};
use npf_types::NoMemory;
use std::alloc::Global;

/// All packets, and the rules that decide on them in their order of precedence.
#[derive(Drop)]
pub(crate) struct RuleOrder<'a> {
    pub model: &'a Model,
    pub order: &'a [RuleEntry<'a>],
    pub packets: Packets<'a>,
}

impl<'a> RuleOrder<'a> {
    ghost use Rattle.std.specs.Prelude.{◌≡◌, ◌≤◌, ◌<◌, ◌&&◌, ℕ, true, false, All, IfOk, IfSome, IsErrOf, Ok, None, length, slice_get};
    ghost use Rattle.std.specs.List.Sorted.{IsStrictlyIncreasing};
    ghost use Rattle.npf_types.specs.declared.direction.Dir.{Dir};
    ghost use Rattle.npf_types.specs.declared.facts.Facts.{Facts};
    ghost use Rattle.npf_types.specs.declared.interface.IfId.{IfId};
    ghost use Rattle.npf_steps.specs.Spent.{IsSpent};
    ghost use Rattle.npf_reach.specs.Kinds.{IsPacket};
    ghost use Rattle.npf_reach.specs.Packets.{IsOf, has_packet};
    ghost use Rattle.npf_judge.specs.Order.{is_first, meets_entry};
    ghost use Rattle.npf_judge.specs.Place.{HasRulePlaces};
    ghost use Rattle.npf_lint.specs.Order.{AreOthers, HasFindingOf, IsFindingAt, IsRuleOrder, matches_at};

    /// What is found of each rule, by its place in the order of inspection.
    ///
    /// # Errors
    /// `Stopped::Spent` where the steps don't suffice, and want of memory.
    pub fn findings(&self, alloc: Global, steps: &mut Steps) -> Result<Vec<RuleFinding>, Stopped>
        requires is { IsRuleOrder self.now.order.now self.now.packets }
        requires places { HasRulePlaces self.now.model.now self.now.order.now }
        ensures count { IfOk result (λ findings. length findings.items ≡ length self.now.order.now) }
        ensures each { IfOk result (λ findings. (at : ℕ) → at < length self.now.order.now → HasFindingOf self.now.model.now self.now.packets.tables.now self.now.order.now findings.items at) }
        ensures spent { IsErrOf result Stopped.Spent → IsSpent steps.new }
        ensures most { steps.new.most ≡ steps.old.most }
        ensures rises { steps.old.taken ≤ steps.new.taken }
    {
        let mut findings = no_findings(alloc, self.order.len())?;
        for (at, entry) in self.order.iter().enumerate() {
            findings[entry.place] = self.finding(alloc, at, steps)?;
        }
        Ok(findings)
    }

    /// What is found of the rule at this place of the order.
    ///
    /// # Errors
    /// `Stopped::Spent` where the steps don't suffice, and want of memory.
    fn finding(&self, alloc: Global, at: usize, steps: &mut Steps) -> Result<RuleFinding, Stopped>
        requires is { IsRuleOrder self.now.order.now self.now.packets }
        requires places { HasRulePlaces self.now.model.now self.now.order.now }
        requires within { at < length self.now.order.now }
        ensures found { IfOk result (IsFindingAt self.now.model.now self.now.packets.tables.now self.now.order.now at) }
        ensures spent { IsErrOf result Stopped.Spent → IsSpent steps.new }
        ensures most { steps.new.most ≡ steps.old.most }
        ensures rises { steps.old.taken ≤ steps.new.taken }
    {
        let matched = self.matched(alloc, at, steps)?;
        if let Some(packet) = self.decided(alloc, &matched, at, steps)? {
            return self.reached(alloc, at, packet, steps);
        }
        let others = self.others(alloc, &matched, at, steps)?;
        if others.is_empty() {
            return Ok(RuleFinding::Impossible);
        }
        Ok(RuleFinding::Covered(others))
    }

    /// The packets that the rule at this place of the order matches.
    ///
    /// # Errors
    /// `Stopped::Spent` where the steps don't suffice, and want of memory.
    fn matched(&self, alloc: Global, at: usize, steps: &mut Steps) -> Result<Packets<'a>, Stopped>
        requires is { IsRuleOrder self.now.order.now self.now.packets }
        requires within { at < length self.now.order.now }
        ensures of { IfOk result (IsOf self.now.packets.tables.now self.now.packets.products.now) }
        ensures matched { IfOk result (λ packets. (facts : Facts) (ifid : IfId) (dir : Dir) → IsPacket facts ifid
            → has_packet packets facts ifid dir ≡ matches_at self.now.packets.tables.now self.now.order.now at facts ifid dir) }
        ensures spent { IsErrOf result Stopped.Spent → IsSpent steps.new }
        ensures most { steps.new.most ≡ steps.old.most }
        ensures rises { steps.old.taken ≤ steps.new.taken }
    {
        let rule = alone(self.order.len(), at);
        let packets = self.packets.narrow(alloc, rule, steps)?;
        Ok(packets)
    }

    /// One of these packets on which the rule at this place of the order decides; none exactly where there is none.
    ///
    /// # Errors
    /// `Stopped::Spent` where the steps don't suffice, and want of memory.
    fn decided(
        &self,
        alloc: Global,
        among: &Packets<'a>,
        at: usize,
        steps: &mut Steps,
    ) -> Result<Option<CellPacket>, Stopped>
        requires is { IsRuleOrder self.now.order.now self.now.packets }
        requires among { IsOf self.now.packets.tables.now self.now.packets.products.now among.now }
        requires within { at < length self.now.order.now }
        ensures none { result ≡ Ok None → (facts : Facts) (ifid : IfId) (dir : Dir) → IsPacket facts ifid
            → (has_packet among.now facts ifid dir && is_first (meets_entry self.now.packets.tables.now facts ifid dir) self.now.order.now at) ≡ false }
        ensures possible { IfOk result (λ found. IfSome found (λ packet. IsPacket packet.facts packet.ifid)) }
        ensures found { IfOk result (λ found. IfSome found (λ packet. (has_packet among.now packet.facts packet.ifid packet.dir
            && is_first (meets_entry self.now.packets.tables.now packet.facts packet.ifid packet.dir) self.now.order.now at) ≡ true)) }
        ensures spent { IsErrOf result Stopped.Spent → IsSpent steps.new }
        ensures most { steps.new.most ≡ steps.old.most }
        ensures rises { steps.old.taken ≤ steps.new.taken }
    {
        let place = decider_with(0, self.order.len(), at);
        let left = among.narrow(alloc, place, steps)?;
        left.packet(alloc, steps)
    }

    /// The rules in front of this place of the order that decide on some of these packets, which are those that the rule there matches: their
    /// places in the order of inspection, the lowest first.
    ///
    /// # Errors
    /// `Stopped::Spent` where the steps don't suffice, and want of memory.
    fn others(
        &self,
        alloc: Global,
        matched: &Packets<'a>,
        at: usize,
        steps: &mut Steps,
    ) -> Result<Vec<usize>, Stopped>
        requires is { IsRuleOrder self.now.order.now self.now.packets }
        requires among { IsOf self.now.packets.tables.now self.now.packets.products.now matched.now }
        requires within { at < length self.now.order.now }
        requires matched { (facts : Facts) (ifid : IfId) (dir : Dir) → IsPacket facts ifid
            → has_packet matched.now facts ifid dir ≡ matches_at self.now.packets.tables.now self.now.order.now at facts ifid dir }
        requires places { HasRulePlaces self.now.model.now self.now.order.now }
        ensures others { IfOk result (λ others. AreOthers self.now.packets.tables.now self.now.order.now at at others.items) }
        ensures ascending { IfOk result (λ others. IsStrictlyIncreasing others.items) }
        ensures spent { IsErrOf result Stopped.Spent → IsSpent steps.new }
        ensures most { steps.new.most ≡ steps.old.most }
        ensures rises { steps.old.taken ≤ steps.new.taken }
    {
        let mut others = Vec::new(alloc);
        for before in 0..at {
            if self.decided(alloc, matched, before, steps)?.is_some() {
                others.push(self.order[before].place)?;
            }
        }
        others.sort_unstable();
        Ok(others)
    }
}

ghost use Rattle.std.specs.Prelude.{◌≡◌, IfOk, length};

/// That no packet matches a rule, so many times.
fn no_findings(alloc: Global, count: usize) -> Result<Vec<RuleFinding>, NoMemory>
    ensures { IfOk result (λ findings. length findings.items ≡ count) }
{
    let mut findings = Vec::new(alloc);
    for _ in 0..count {
        findings.push(RuleFinding::Impossible)?;
    }
    Ok(findings)
}
