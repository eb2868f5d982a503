// The packets of a class, and the rules that may decide on them.
use npf_model::Rule;
use npf_precedence::RuleEntry;
use npf_products::CellPacket;
use npf_reach::Packets;
use npf_search::Decider;
use npf_steps::{Steps, Stopped};
use npf_types::NoMemory;
use std::alloc::Global;

/// The rule of a class, and the rules that may decide on its packets, in their order of precedence.
#[derive(Clone, Copy)]
pub(crate) struct ClassOrder<'a> {
    pub class: &'a Rule,
    pub order: &'a [RuleEntry<'a>],
}

/// The packets of a class, and the rules that may decide on them in their order of precedence.
#[derive(Drop)]
pub(crate) struct Question<'a> {
    pub class: &'a Rule,
    pub order: &'a [RuleEntry<'a>],
    pub packets: Packets<'a>,
}

impl Question<'_> {
    ghost use Rattle.std.specs.Prelude.{◌≡◌, ◌≤◌, ◌<◌, true, false, All, IfOk, IfSome, IsErrOf, Ok, None, length, slice_get};
    ghost use Rattle.npf_types.specs.declared.direction.Dir.{Dir};
    ghost use Rattle.npf_types.specs.declared.facts.Facts.{Facts};
    ghost use Rattle.npf_types.specs.declared.interface.IfId.{IfId};
    ghost use Rattle.npf_steps.specs.Spent.{IsSpent};
    ghost use Rattle.npf_judge.specs.Deciders.{IsClassPacket};
    ghost use Rattle.npf_judge.specs.Order.{AreSound, AreWhole, IsDecidedIn, IsQuestion, meets_entry, is_first, entry_place};

    /// One of the packets on which the entry at this place of the order decides, or none does where that is behind the last; none exactly where
    /// there is none.
    ///
    /// # Errors
    /// `Stopped::Spent` where the steps don't suffice, and want of memory.
    pub fn decided(
        &self,
        alloc: Global,
        at: usize,
        steps: &mut Steps,
    ) -> Result<Option<CellPacket>, Stopped>
        requires is { IsQuestion self.now.class.now self.now.order.now self.now.packets }
        requires within { at ≤ length self.now.order.now }
        ensures none { result ≡ Ok None → (facts : Facts) (ifid : IfId) (dir : Dir) → IsClassPacket self.now.packets.tables.now self.now.class.now facts ifid dir
            → is_first (meets_entry self.now.packets.tables.now facts ifid dir) self.now.order.now at ≡ false }
        ensures found { IfOk result (λ found. IfSome found (IsDecidedIn self.now.packets.tables.now self.now.class.now self.now.order.now (entry_place (slice_get self.now.order.now at)))) }
        ensures spent { IsErrOf result Stopped.Spent → IsSpent steps.new }
        ensures most { steps.new.most ≡ steps.old.most }
        ensures rises { steps.old.taken ≤ steps.new.taken }
    {
        let place = decider_with(1, self.order.len(), at);
        let left = self.packets.narrow(alloc, place, steps)?;
        left.packet(alloc, steps)
    }

    /// For each rule, by its place, one of the packets on which it decides.
    ///
    /// # Errors
    /// `Stopped::Spent` where the steps don't suffice, and want of memory.
    pub fn rules(
        &self,
        alloc: Global,
        steps: &mut Steps,
    ) -> Result<Vec<Option<CellPacket>>, Stopped>
        requires is { IsQuestion self.now.class.now self.now.order.now self.now.packets }
        requires places { All (λ entry. entry.place < length self.now.order.now) self.now.order.now }
        ensures count { IfOk result (λ rules. length rules.items ≡ length self.now.order.now) }
        ensures sound { IfOk result (λ rules. AreSound self.now.packets.tables.now self.now.class.now self.now.order.now rules.items) }
        ensures whole { IfOk result (λ rules. AreWhole self.now.packets.tables.now self.now.class.now self.now.order.now rules.items) }
        ensures spent { IsErrOf result Stopped.Spent → IsSpent steps.new }
        ensures most { steps.new.most ≡ steps.old.most }
        ensures rises { steps.old.taken ≤ steps.new.taken }
    {
        let mut rules = no_packets(alloc, self.order.len())?;
        for (at, entry) in self.order.iter().enumerate() {
            let found = self.decided(alloc, at, steps)?;
            put_found(&mut rules, entry.place, found);
        }
        Ok(rules)
    }
}

ghost use Rattle.std.specs.Prelude.{◌≡◌, ◌≤◌, ◌<◌, ◌+◌, ◌^◌, IfOk, None, length, replicate};
ghost use Rattle.npf_judge.specs.Order.{put_found};

/// A place of a list whose items have the numbers from `first` on.
pub fn decider_with(first: usize, count: usize, place: usize) -> Decider
    requires within { place ≤ count }
    requires bounded { first + count < 2 ^ 64 }
    ensures first { result.first ≡ first }
    ensures count { result.count ≡ count }
    ensures place { result.place ≡ place }
{
    Decider {
        first,
        count,
        place,
    }
}

// Notes what was found for the rule at a place, if something was.
fn put_found(rules: &mut Vec<Option<CellPacket>>, place: usize, found: Option<CellPacket>)
    requires { place < length rules.old.items }
    ensures { rules.new.items ≡ put_found rules.old.items place found }
{
    if found.is_some() {
        rules[place] = found;
    }
}

// No packet, so many times.
fn no_packets(alloc: Global, count: usize) -> Result<Vec<Option<CellPacket>>, NoMemory>
    ensures { IfOk result (λ packets. packets.items ≡ replicate count None) }
{
    let mut packets = Vec::new(alloc);
    for _ in 0..count {
        packets.push(None)?;
    }
    Ok(packets)
}
