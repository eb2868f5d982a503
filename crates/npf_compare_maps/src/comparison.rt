// Both configurations, and all packets.
use crate::difference::MapDifference;
use crate::same::writes_same;
use crate::side::RankedSide;
use npf_products::CellPacket;
use npf_reach::Packets;
use npf_steps::{Steps, Stopped};
use npf_types::Dir;
use std::alloc::Global;

/// Both configurations, and all packets.
#[derive(Drop)]
pub(crate) struct MapComparison<'a> {
    pub before: RankedSide<'a>,
    pub after: RankedSide<'a>,
    pub packets: Packets<'a>,
}

impl<'a> MapComparison<'a> {
    ghost use Rattle.std.specs.Prelude.{◌≡◌, ◌≤◌, ◌+◌, IfOk, OnOk, IfSome, IsErrOf, Ok, None};
    ghost use Rattle.npf_steps.specs.Spent.{IsSpent};
    ghost use Rattle.npf_products.specs.declared.packet.CellPacket.{CellPacket};
    ghost use Rattle.npf_compare_maps.specs.MapDifference.{AreMapDifferences};
    ghost use Rattle.npf_compare_maps.specs.Side.{AreToldUpTo, IsComparison, IsPairDifference, config_after, config_before, map_count};

    /// The differences, by the maps before, and for one of them by the maps after.
    ///
    /// # Errors
    /// `Stopped::Spent` where the steps don't suffice, and want of memory.
    pub fn differences(
        &self,
        alloc: Global,
        steps: &mut Steps,
    ) -> Result<Vec<MapDifference>, Stopped>
        requires { IsComparison self.now }
        ensures differences { IfOk result (λ differences. AreMapDifferences (config_before self.now) (config_after self.now) differences.items) }
        ensures spent { IsErrOf result Stopped.Spent → IsSpent steps.new }
        ensures most { steps.new.most ≡ steps.old.most }
        ensures rises { steps.old.taken ≤ steps.new.taken }
    {
        let mut differences = Vec::new(alloc);
        for old in 0..self.before.maps() + 1 {
            self.add_row(alloc, &mut differences, old, steps)?;
        }
        Ok(differences)
    }

    /// Adds the differences of one map before, or behind the last of none.
    ///
    /// # Errors
    /// `Stopped::Spent` where the steps don't suffice, and want of memory.
    fn add_row(
        &self,
        alloc: Global,
        differences: &mut Vec<MapDifference>,
        old: usize,
        steps: &mut Steps,
    ) -> Result<(), Stopped>
        requires is { IsComparison self.now }
        requires within { old ≤ map_count self.now.before.config }
        requires told { AreToldUpTo self.now old 0 differences.old.items }
        ensures told { OnOk result (AreToldUpTo self.now (old + 1) 0 differences.new.items) }
        ensures spent { IsErrOf result Stopped.Spent → IsSpent steps.new }
        ensures most { steps.new.most ≡ steps.old.most }
        ensures rises { steps.old.taken ≤ steps.new.taken }
    {
        for new in 0..self.after.maps() + 1 {
            if let Some(packet) = self.pair(alloc, old, new, steps)? {
                differences.push(MapDifference {
                    old: self.before.map_at(old),
                    new: self.after.map_at(new),
                    packet,
                })?;
            }
        }
        Ok(())
    }

    /// A packet that both pass alike, and into which these maps write different things; none exactly where there is none. Behind the last a place stands for
    /// no map.
    ///
    /// # Errors
    /// `Stopped::Spent` where the steps don't suffice, and want of memory.
    fn pair(
        &self,
        alloc: Global,
        old: usize,
        new: usize,
        steps: &mut Steps,
    ) -> Result<Option<CellPacket>, Stopped>
        requires is { IsComparison self.now }
        requires within { (old ≤ map_count self.now.before.config) × (new ≤ map_count self.now.after.config) }
        ensures none { result ≡ Ok None → (packet : CellPacket) → ¬ IsPairDifference self.now old new packet }
        ensures found { IfOk result (λ found. IfSome found (IsPairDifference self.now old new)) }
        ensures spent { IsErrOf result Stopped.Spent → IsSpent steps.new }
        ensures most { steps.new.most ≡ steps.old.most }
        ensures rises { steps.old.taken ≤ steps.new.taken }
    {
        if let Some(packet) = self.pair_in(alloc, Dir::Out, old, new, steps)? {
            return Ok(Some(packet));
        }
        self.pair_in(alloc, Dir::In, old, new, steps)
    }

    /// The same of packets that pass in the direction.
    ///
    /// # Errors
    /// `Stopped::Spent` where the steps don't suffice, and want of memory.
    fn pair_in(
        &self,
        alloc: Global,
        asked: Dir,
        old: usize,
        new: usize,
        steps: &mut Steps,
    ) -> Result<Option<CellPacket>, Stopped>
        requires is { IsComparison self.now }
        requires old { old ≤ map_count self.now.before.config }
        requires new { new ≤ map_count self.now.after.config }
        ensures none { result ≡ Ok None → (packet : CellPacket) → packet.dir ≡ asked → ¬ IsPairDifference self.now old new packet }
        ensures found { IfOk result (λ found. IfSome found (IsPairDifference self.now old new)) }
        ensures spent { IsErrOf result Stopped.Spent → IsSpent steps.new }
        ensures most { steps.new.most ≡ steps.old.most }
        ensures rises { steps.old.taken ≤ steps.new.taken }
    {
        let written = self.before.written(asked, old);
        if writes_same(&written, &self.after.written(asked, new)) {
            return Ok(None);
        }
        let by_old = self
            .before
            .translated(alloc, &self.packets, asked, old, steps)?;
        let by_both = self.after.translated(alloc, &by_old, asked, new, steps)?;
        if by_both.packet(alloc, steps)?.is_none() {
            return Ok(None);
        }
        self.passed_alike(alloc, &by_both, steps)
    }
}
