// All packets, and the groups that they come to.
use npf_judge::decider_with;
use npf_lint::alone;
use npf_model::Group;
use npf_precedence::{RuleEntry, rules_of};
use npf_products::CellPacket;
use npf_reach::Packets;
use npf_steps::{Steps, Stopped};
use std::alloc::Global;

/// Groups, and their rules in the order of precedence with the groups behind them as rules of their own.
#[derive(Clone, Copy)]
pub(crate) struct GroupRules<'a> {
    pub groups: &'a [Group],
    pub entries: &'a [RuleEntry<'a>],
}

/// All packets, and the groups that they come to.
#[derive(Drop)]
pub(crate) struct GroupOrder<'a> {
    pub rules: GroupRules<'a>,
    pub packets: Packets<'a>,
}

impl<'a> GroupOrder<'a> {
    ghost use Rattle.std.specs.Prelude.{◌≡◌, ◌≤◌, ◌<◌, ◌+◌, ◌-◌, ◌&&◌, ℕ, Ok, None, IfOk, IfSome, IsErrOf, length, slice_get, take, not};
    ghost use Rattle.npf_types.specs.declared.direction.Dir.{Dir};
    ghost use Rattle.npf_types.specs.declared.facts.Facts.{Facts};
    ghost use Rattle.npf_types.specs.declared.interface.IfId.{IfId};
    ghost use Rattle.npf_precedence.specs.Precedence.{in_order};
    ghost use Rattle.npf_steps.specs.Spent.{IsSpent};
    ghost use Rattle.npf_reach.specs.Kinds.{IsPacket};
    ghost use Rattle.npf_reach.specs.Packets.{IsOf, has_packet};
    ghost use Rattle.npf_lint.specs.Order.{IsRuleOrder};
    ghost use Rattle.npf_dead_groups.specs.Comes.{ReachesGroup, IsDeadGroup, IsGroupFinding, applies_at, is_answered_before};
    ghost use Rattle.npf_dead_groups.specs.Entries.{AreGroupedEntries};

    /// For each group a packet that comes to it, or none where it is dead.
    ///
    /// # Errors
    /// `Stopped::Spent` where the steps don't suffice, and want of memory.
    pub fn reached(
        &self,
        alloc: Global,
        steps: &mut Steps,
    ) -> Result<Vec<Option<CellPacket>>, Stopped>
        requires is { IsRuleOrder self.now.rules.entries.now self.now.packets }
        requires entries { AreGroupedEntries self.now.rules.groups.now self.now.rules.entries.now }
        ensures count { IfOk result (λ found. length found.items ≡ length self.now.rules.groups.now) }
        ensures each { IfOk result (λ found. (place : ℕ) → IfSome (slice_get found.items place) (IsGroupFinding self.now.packets.tables.now self.now.rules.groups.now place)) }
        ensures spent { IsErrOf result Stopped.Spent → IsSpent steps.new }
        ensures most { steps.new.most ≡ steps.old.most }
        ensures rises { steps.old.taken ≤ steps.new.taken }
    {
        let rules = self.rules.entries.len() - self.rules.groups.len();
        let mut found = Vec::new(alloc);
        let mut front = 0;
        for (place, group) in self.rules.groups.iter().enumerate() {
            found.push(self.left_to(alloc, rules + place, place, front, steps)?)?;
            front += rules_of(alloc, group, 0)?.len();
        }
        Ok(found)
    }

    /// A packet that comes to the group at this place, whose own entry has the place `own` and in front of whose rules so many others stand; none exactly
    /// where the group is dead.
    ///
    /// # Errors
    /// `Stopped::Spent` where the steps don't suffice, and want of memory.
    fn left_to(
        &self,
        alloc: Global,
        own: usize,
        place: usize,
        front: usize,
        steps: &mut Steps,
    ) -> Result<Option<CellPacket>, Stopped>
        requires is { IsRuleOrder self.now.rules.entries.now self.now.packets }
        requires entries { AreGroupedEntries self.now.rules.groups.now self.now.rules.entries.now }
        requires within { place < length self.now.rules.groups.now }
        requires own { own ≡ length self.now.rules.entries.now - length self.now.rules.groups.now + place }
        requires front { front ≡ length (in_order (take place self.now.rules.groups.now)) }
        ensures none { result ≡ Ok None → IsDeadGroup self.now.packets.tables.now self.now.rules.groups.now place }
        ensures found { IfOk result (λ found. IfSome found (ReachesGroup self.now.packets.tables.now self.now.rules.groups.now place)) }
        ensures spent { IsErrOf result Stopped.Spent → IsSpent steps.new }
        ensures most { steps.new.most ≡ steps.old.most }
        ensures rises { steps.old.taken ≤ steps.new.taken }
    {
        let entries = self.rules.entries;
        let group = alone(
            entries.len(),
            entries.len() - self.rules.groups.len() + place,
        );
        let of_group = self.packets.narrow(alloc, group, steps)?;
        let none = decider_with(0, front, front);
        let left = of_group.narrow(alloc, none, steps)?;
        left.packet(alloc, steps)
    }
}
