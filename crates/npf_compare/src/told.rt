// The differences, by the old rules' places and for each by the new ones'.
use crate::asked::AskedPlaces;
use crate::both::BothOrders;
use crate::difference::RuleDifference;
use npf_steps::{Steps, Stopped};
use std::alloc::Global;

impl BothOrders<'_> {
    ghost use Rattle.std.specs.Prelude.{◌≡◌, ◌≤◌, ◌<◌, ◌+◌, ℕ, All, AllPairs, Contains, IfOk, OnOk, IsErrOf, length, slice_index};
    ghost use Rattle.npf_steps.specs.Spent.{IsSpent};
    ghost use Rattle.npf_compare.specs.Side.{AreOfBoth, IsSideOf};
    ghost use Rattle.npf_compare.specs.Told.{AreToldBefore, AreToldOfAll, IsAskedWhole, IsToldOrAlike, asked_of};

    /// The differences of all pairs.
    ///
    /// # Errors
    /// `Stopped::Spent` where the steps don't suffice, and want of memory.
    pub fn differences(
        &self,
        alloc: Global,
        asked: &AskedPlaces,
        steps: &mut Steps,
    ) -> Result<Vec<RuleDifference>, Stopped>
        requires of { AreOfBoth self.now.old self.now.new self.now.packets }
        requires old { IsSideOf self.now.old }
        requires new { IsSideOf self.now.new }
        requires asked { IsAskedWhole self.now.old self.now.new asked.now }
        ensures told { IfOk result (λ differences. AreToldOfAll self.now.old self.now.new asked.now differences.items) }
        ensures spent { IsErrOf result Stopped.Spent → IsSpent steps.new }
        ensures most { steps.new.most ≡ steps.old.most }
        ensures rises { steps.old.taken ≤ steps.new.taken }
    {
        let mut differences = Vec::new(alloc);
        for place in 0..self.old.at.len() {
            let others = asked.of(self.old.at[place]);
            self.add(alloc, &mut differences, place, others, steps)?;
        }
        Ok(differences)
    }

    /// Adds those of the old rule at this place and one of these new ones.
    ///
    /// # Errors
    /// `Stopped::Spent` where the steps don't suffice, and want of memory.
    fn add(
        &self,
        alloc: Global,
        differences: &mut Vec<RuleDifference>,
        place: usize,
        others: &[usize],
        steps: &mut Steps,
    ) -> Result<(), Stopped>
        requires of { AreOfBoth self.now.old self.now.new self.now.packets }
        requires old { IsSideOf self.now.old }
        requires new { IsSideOf self.now.new }
        requires place { place ≤ length self.now.old.order.now }
        requires within { All (λ other. other ≤ length self.now.new.order.now) others.now }
        requires rising { AllPairs (λ one next. one < next) others.now }
        requires told { AreToldBefore self.now.old self.now.new place differences.old.items }
        ensures told { OnOk result (AreToldBefore self.now.old self.now.new (place + 1) differences.new.items) }
        ensures kept { OnOk result ((one other : ℕ) → IsToldOrAlike self.now.old self.now.new differences.old.items one other
            → IsToldOrAlike self.now.old self.now.new differences.new.items one other) }
        ensures settled { OnOk result ((k : ℕ) → k < length others.now → IsToldOrAlike self.now.old self.now.new differences.new.items place (slice_index others.now k)) }
        ensures spent { IsErrOf result Stopped.Spent → IsSpent steps.new }
        ensures most { steps.new.most ≡ steps.old.most }
        ensures rises { steps.old.taken ≤ steps.new.taken }
    {
        let at = self.old.at[place];
        let matched = self.matched(alloc, at, steps)?;
        for other in others {
            let found = self.unlike(alloc, &matched, at, self.new.at[*other], steps)?;
            if let Some(packet) = found {
                differences.push(RuleDifference {
                    old: self.old.rule(place),
                    new: self.new.rule(*other),
                    packet,
                })?;
            }
        }
        Ok(())
    }
}
