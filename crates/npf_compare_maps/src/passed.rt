// Packets that both configurations pass alike.
use crate::comparison::MapComparison;
use npf_products::CellPacket;
use npf_reach::Packets;
use npf_steps::{Steps, Stopped};
use npf_treatment::{RuleEffect, is_same};
use std::alloc::Global;

impl<'a> MapComparison<'a> {
    ghost use Rattle.std.specs.Prelude.{◌≡◌, ◌≤◌, true, IfOk, IfSome, IsErrOf, Ok, None};
    ghost use Rattle.npf_steps.specs.Spent.{IsSpent};
    ghost use Rattle.npf_products.specs.declared.packet.CellPacket.{CellPacket};
    ghost use Rattle.npf_reach.specs.Packets.{IsOf};
    ghost use Rattle.npf_compare_maps.specs.MapDifference.{IsPassing};
    ghost use Rattle.npf_compare_maps.specs.Side.{IsAlikeAmong, IsComparison, IsTreatedAs, config_after, config_before};

    /// One of these packets that both pass alike; none exactly where there is none.
    ///
    /// # Errors
    /// `Stopped::Spent` where the steps don't suffice, and want of memory.
    pub fn passed_alike(
        &self,
        alloc: Global,
        among: &Packets<'a>,
        steps: &mut Steps,
    ) -> Result<Option<CellPacket>, Stopped>
        requires is { IsComparison self.now }
        requires among { IsOf self.now.packets.tables.now self.now.packets.products.now among.now }
        ensures none { result ≡ Ok None → (packet : CellPacket) → ¬ IsAlikeAmong (config_before self.now) (config_after self.now) among.now packet }
        ensures found { IfOk result (λ found. IfSome found (IsAlikeAmong (config_before self.now) (config_after self.now) among.now)) }
        ensures spent { IsErrOf result Stopped.Spent → IsSpent steps.new }
        ensures most { steps.new.most ≡ steps.old.most }
        ensures rises { steps.old.taken ≤ steps.new.taken }
    {
        for at in 0..self.before.config.order.len() {
            let effect = self.before.effect(at);
            if is_passing(&effect) {
                let passed = self.before.decided(alloc, among, at, steps)?;
                if let Some(packet) = self.passed_as(alloc, &passed, &effect, steps)? {
                    return Ok(Some(packet));
                }
            }
        }
        Ok(None)
    }

    /// One of these packets that the configuration after passes with this effect; none exactly where there is none.
    ///
    /// # Errors
    /// `Stopped::Spent` where the steps don't suffice, and want of memory.
    fn passed_as(
        &self,
        alloc: Global,
        among: &Packets<'a>,
        effect: &RuleEffect,
        steps: &mut Steps,
    ) -> Result<Option<CellPacket>, Stopped>
        requires is { IsComparison self.now }
        requires among { IsOf self.now.packets.tables.now self.now.packets.products.now among.now }
        requires passing { IsPassing effect.now }
        ensures none { result ≡ Ok None → (packet : CellPacket) → ¬ IsTreatedAs (config_after self.now) among.now effect.now packet }
        ensures found { IfOk result (λ found. IfSome found (IsTreatedAs (config_after self.now) among.now effect.now)) }
        ensures spent { IsErrOf result Stopped.Spent → IsSpent steps.new }
        ensures most { steps.new.most ≡ steps.old.most }
        ensures rises { steps.old.taken ≤ steps.new.taken }
    {
        if among.packet(alloc, steps)?.is_none() {
            return Ok(None);
        }
        for at in 0..self.after.config.order.len() {
            if is_same(&self.after.effect(at), effect) {
                let passed = self.after.decided(alloc, among, at, steps)?;
                let found = passed.packet(alloc, steps)?;
                if found.is_some() {
                    return Ok(found);
                }
            }
        }
        Ok(None)
    }
}

ghost use Rattle.std.specs.Prelude.{◌≡◌, true, false};
ghost use Rattle.npf_compare_maps.specs.MapDifference.{IsPassing};

fn is_passing(effect: &RuleEffect) -> bool
    ensures passing { result ≡ true → IsPassing effect.now }
    ensures other { result ≡ false → ¬ IsPassing effect.now }
{
    match effect {
        RuleEffect::Passed { .. } => true,
        RuleEffect::Blocked { .. } => false,
    }
}
