// All packets, and the rules of both configurations that decide on them.
use crate::products::alone_at;
use crate::side::RuleSide;
use npf_judge::decider_with;
use npf_products::CellPacket;
use npf_reach::Packets;
use npf_steps::{Steps, Stopped};
use npf_treatment::is_same;
use std::alloc::Global;

/// All packets, and the rules of two configurations that decide on them.
#[derive(Drop)]
pub(crate) struct BothOrders<'a> {
    pub old: RuleSide<'a>,
    pub new: RuleSide<'a>,
    pub packets: Packets<'a>,
}

impl<'a> BothOrders<'a> {
    ghost use Rattle.std.specs.Prelude.{◌≡◌, ◌≤◌, ◌<◌, true, IfOk, IfSome, IsErrOf, Ok, None, length};
    ghost use Rattle.npf_products.specs.declared.packet.CellPacket.{CellPacket};
    ghost use Rattle.npf_steps.specs.Spent.{IsSpent};
    ghost use Rattle.npf_compare.specs.Side.{AreFellows, AreBothFirst, AreMatched, AreOfBoth, AreUnlike, effect_at};

    /// The packets that the old rule at this place matches, or all at the place behind all.
    ///
    /// # Errors
    /// `Stopped::Spent` where the steps don't suffice, and want of memory.
    pub fn matched(
        &self,
        alloc: Global,
        at: usize,
        steps: &mut Steps,
    ) -> Result<Packets<'a>, Stopped>
        requires of { AreOfBoth self.now.old self.now.new self.now.packets }
        requires within { at ≤ length self.now.old.order.now }
        ensures matched { IfOk result (AreMatched self.now.old self.now.packets at) }
        ensures spent { IsErrOf result Stopped.Spent → IsSpent steps.new }
        ensures most { steps.new.most ≡ steps.old.most }
        ensures rises { steps.old.taken ≤ steps.new.taken }
    {
        let alone = alone_at(at, self.old.order.len());
        let packets = self.packets.narrow(alloc, alone, steps)?;
        Ok(packets)
    }

    /// One of these packets, which the old rule at the place `at` matches, on which it decides by the old configuration, and the new rule at the place `other` by
    /// the new one, if what they do isn't the same; none exactly where there is none, or it is. The boxes of the two are held against each other before those in
    /// front of them.
    ///
    /// # Errors
    /// `Stopped::Spent` where the steps don't suffice, and want of memory.
    pub fn unlike(
        &self,
        alloc: Global,
        matched: &Packets<'a>,
        at: usize,
        other: usize,
        steps: &mut Steps,
    ) -> Result<Option<CellPacket>, Stopped>
        requires of { AreOfBoth self.now.old self.now.new self.now.packets }
        requires old_within { at ≤ length self.now.old.order.now }
        requires new_within { other ≤ length self.now.new.order.now }
        requires matched { AreMatched self.now.old self.now.packets at matched.now }
        ensures none { result ≡ Ok None → (packet : CellPacket) → AreBothFirst self.now.old self.now.new at other packet
            → effect_at self.now.old at ≡ effect_at self.now.new other }
        ensures found { IfOk result (λ found. IfSome found (AreUnlike self.now.old self.now.new at other)) }
        ensures spent { IsErrOf result Stopped.Spent → IsSpent steps.new }
        ensures most { steps.new.most ≡ steps.old.most }
        ensures rises { steps.old.taken ≤ steps.new.taken }
    {
        if is_same(&self.old.effect(at), &self.new.effect(other)) {
            return Ok(None);
        }
        let count = self.old.order.len();
        let by_new = decider_with(count, self.new.order.len(), other);
        let by_old = decider_with(0, count, at);
        let decided = matched.narrow(alloc, by_new, steps)?;
        let both = decided.narrow(alloc, by_old, steps)?;
        both.packet(alloc, steps)
    }

    /// Whether these rules surely match the same packets, and do the same.
    pub fn is_alike(&self, at: usize, other: usize) -> bool
        requires of { AreOfBoth self.now.old self.now.new self.now.packets }
        requires old_within { at < length self.now.old.order.now }
        requires new_within { other < length self.now.new.order.now }
        ensures { result ≡ true → AreFellows self.now.old self.now.new at other }
    {
        let Some(number) = self.old.order.len().checked_add(other) else {
            return false;
        };
        is_same(&self.old.effect(at), &self.new.effect(other)) && self.packets.is_alike(at, number)
    }
}
