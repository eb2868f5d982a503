// One of the two configurations.
use npf_model::Model;
use npf_precedence::RuleEntry;
use npf_reach::Packets;
use npf_search::Decider;
use npf_steps::{Steps, Stopped};
use npf_treatment::{MapEffect, NO_RULE, RuleEffect, map_effect, rule_effect};
use npf_types::{Dir, List, Prefix};
use std::alloc::Global;

/// A configuration with its rules in their order of precedence.
#[derive(Clone, Copy)]
pub(crate) struct RankedConfig<'a> {
    pub model: &'a Model,
    pub tables: &'a [List<Prefix>],
    pub order: &'a [RuleEntry<'a>],
}

/// One of the two configurations, with the number of its first product: its rules in their order stand there, then its maps going out, and then its maps
/// coming in.
#[derive(Clone, Copy)]
pub(crate) struct RankedSide<'a> {
    pub config: RankedConfig<'a>,
    pub first: usize,
    ghost bounded: { first + length config.order.now + 2 * length config.model.now.maps < 2 ^ 64 },
}

ghost use Rattle.std.specs.Prelude.{◌<◌, ◌+◌, ◌*◌, ◌^◌, length};

impl<'a> RankedSide<'a> {
    ghost use Rattle.std.specs.Prelude.{◌≡◌, ◌≤◌, ◌<◌, ◌+◌, ◌*◌, ◌^◌, ◌&&◌, IfOk, IsErrOf, length, slice_get};
    ghost use Rattle.npf_types.specs.declared.direction.Dir.{Dir};
    ghost use Rattle.npf_types.specs.declared.facts.Facts.{Facts};
    ghost use Rattle.npf_types.specs.declared.interface.IfId.{IfId};
    ghost use Rattle.npf_steps.specs.Spent.{IsSpent};
    ghost use Rattle.npf_reach.specs.Kinds.{IsPacket};
    ghost use Rattle.npf_reach.specs.Packets.{IsOf, has_packet};
    ghost use Rattle.npf_judge.specs.Order.{is_first, meets_entry};
    ghost use Rattle.npf_compare_maps.specs.Side.{IsSide, entry_effect, is_translated, map_at, map_count, maps_from, written_at};

    /// Those of the packets on which the rule at this place of the order decides, or behind the last none does.
    ///
    /// # Errors
    /// `Stopped::Spent` where the steps don't suffice, and want of memory.
    pub fn decided(
        &self,
        alloc: Global,
        packets: &Packets<'a>,
        at: usize,
        steps: &mut Steps,
    ) -> Result<Packets<'a>, Stopped>
        requires of { IsOf packets.now.tables.now packets.now.products.now packets.now }
        requires side { IsSide packets.now.tables.now packets.now.products.now self.now }
        requires within { at ≤ length self.now.config.order.now }
        ensures of { IfOk result (IsOf packets.now.tables.now packets.now.products.now) }
        ensures decided { IfOk result (λ left. (facts : Facts) (ifid : IfId) (dir : Dir) → IsPacket facts ifid
            → has_packet left facts ifid dir ≡ (has_packet packets.now facts ifid dir && is_first (meets_entry self.now.config.tables.now facts ifid dir) self.now.config.order.now at)) }
        ensures spent { IsErrOf result Stopped.Spent → IsSpent steps.new }
        ensures most { steps.new.most ≡ steps.old.most }
        ensures rises { steps.old.taken ≤ steps.new.taken }
    {
        let place = place_among(self.first, self.config.order.len(), at);
        let left = packets.narrow(alloc, place, steps)?;
        Ok(left)
    }

    /// Those of the packets that the map at this place translates in the direction, or behind the last none does.
    ///
    /// # Errors
    /// `Stopped::Spent` where the steps don't suffice, and want of memory.
    pub fn translated(
        &self,
        alloc: Global,
        packets: &Packets<'a>,
        asked: Dir,
        at: usize,
        steps: &mut Steps,
    ) -> Result<Packets<'a>, Stopped>
        requires of { IsOf packets.now.tables.now packets.now.products.now packets.now }
        requires side { IsSide packets.now.tables.now packets.now.products.now self.now }
        requires within { at ≤ map_count self.now.config }
        ensures of { IfOk result (IsOf packets.now.tables.now packets.now.products.now) }
        ensures translated { IfOk result (λ left. (facts : Facts) (ifid : IfId) (dir : Dir) → IsPacket facts ifid
            → has_packet left facts ifid dir ≡ (has_packet packets.now facts ifid dir && is_translated self.now.config asked at facts ifid dir)) }
        ensures spent { IsErrOf result Stopped.Spent → IsSpent steps.new }
        ensures most { steps.new.most ≡ steps.old.most }
        ensures rises { steps.old.taken ≤ steps.new.taken }
    {
        let place = place_among(self.maps_from(asked), self.maps(), at);
        let left = packets.narrow(alloc, place, steps)?;
        Ok(left)
    }

    fn maps_from(&self, asked: Dir) -> usize
        ensures from { result ≡ maps_from self.now asked }
        ensures bounded { result + map_count self.now.config < 2 ^ 64 }
    {
        let outward = self.first + self.config.order.len();
        match asked {
            Dir::Out => outward,
            Dir::In => outward + self.maps(),
        }
    }

    /// How many maps the configuration has.
    pub fn maps(&self) -> usize
        ensures { result ≡ map_count self.now.config }
    {
        self.config.model.maps.as_slice().len()
    }

    /// The place of a map; none behind the last.
    pub fn map_at(&self, at: usize) -> Option<usize>
        ensures { result ≡ map_at self.now.config at }
    {
        match self.config.model.maps.as_slice().get(at) {
            Some(_) => Some(at),
            None => None,
        }
    }

    /// What is done by the rule at this place of the order, or behind the last where none decides.
    pub fn effect(&self, at: usize) -> RuleEffect
        ensures { result ≡ entry_effect self.now.config (slice_get self.now.config.order.now at) }
    {
        match self.config.order.get(at) {
            Some(entry) => rule_effect(self.config.model, entry.rule),
            None => NO_RULE,
        }
    }

    /// What the map at this place writes in the direction, or behind the last nothing.
    pub fn written(&self, asked: Dir, at: usize) -> Option<MapEffect>
        ensures { result ≡ written_at self.now.config asked at }
    {
        match self.config.model.maps.as_slice().get(at) {
            Some(map) => Some(map_effect(map, asked)),
            None => None,
        }
    }
}

ghost use Rattle.std.specs.Prelude.{◌≡◌, ◌≤◌};

/// A place of a list of so many products, the first of which has this number.
fn place_among(number: usize, many: usize, at: usize) -> Decider
    requires within { at ≤ many }
    requires bounded { number + many < 2 ^ 64 }
    ensures first { result.first ≡ number }
    ensures count { result.count ≡ many }
    ensures place { result.place ≡ at }
{
    Decider {
        first: number,
        count: many,
        place: at,
    }
}
