// A dimension in classes.
ghost use Rattle.std.specs.Prelude.{◌≡◌, ◌≤◌, ◌<◌, slice_index, vec_len};
ghost use Rattle.std.specs.List.{All, AllPairs};
ghost use Rattle.npf_cut.specs.Partition.{AreFirsts};
ghost use Rattle.npf_cut.specs.Span.{IsSpanWithin};

use crate::merge::merged;
use crate::partition::partition_by;
use crate::range::Range;
use crate::set_bits::SetBits;
use crate::span::{SetSpan, spans_of};
use crate::start::starts_of;
use npf_steps::{Steps, Stopped};
use std::alloc::Global;

/// The numbers from 0 to a top in the classes that some sets tell apart.
#[derive(Drop)]
pub struct Dimension {
    /// The starts of the intervals, in order.
    starts: Vec<u128>,
    /// The class of each interval.
    classes: Vec<usize>,
    /// The first interval of each class.
    firsts: Vec<usize>,
    /// The sets as intervals.
    spans: Vec<SetSpan>,
    ghost rises: { AllPairs (λ a b. a < b) starts.items },
    ghost some: { 0 < vec_len starts },
    ghost zero: { slice_index starts.items 0 ≡ 0 },
    ghost paired: { vec_len classes ≡ vec_len starts },
    ghost firsts_are: { AreFirsts classes.items firsts.items },
    ghost within: { All (IsSpanWithin (vec_len starts)) spans.items },
}

impl Dimension {
    ghost use Rattle.std.specs.Prelude.{◌+◌, ◌*◌, ◌/◌, ◌↔◌, ℕ, true, IfOk, OnOk, IsErrOf};
    ghost use Rattle.npf_bits.specs.Bits.{has};
    ghost use Rattle.npf_steps.specs.Spent.{IsSpent};
    ghost use Rattle.npf_cut.specs.Dimension.{HasClass, IsCutBy, class_count, class_at, member_of};
    ghost use Rattle.npf_cut.specs.SetBits.{set_words};
    ghost use Rattle.npf_cut.specs.Span.{interval_count};

    /// The numbers from 0 to `top` in the classes that the sets with these ranges tell apart. A set's ranges may be many, overlap and be
    /// empty; it takes a step for each interval of each set, so sets that are equal are best given as one. Proved is that no set tells
    /// two numbers of a class apart; that some set tells numbers of different classes apart, so that the classes are as few as can be, is
    /// not proved.
    ///
    /// # Errors
    /// `Stopped::Spent` where it wants more steps than are left, and `Stopped::NoMemory`.
    pub fn new(
        alloc: Global,
        top: u128,
        mut ranges: Vec<Range>,
        steps: &mut Steps,
    ) -> Result<Dimension, Stopped>
        ensures cut { IfOk result (IsCutBy ranges.items top) }
        ensures counted { IfOk result (λ made. steps.old.taken + interval_count made.spans.items ≤ steps.new.taken) }
        ensures spent { IsErrOf result Stopped.Spent → IsSpent steps.new }
        ensures most { steps.new.most ≡ steps.old.most }
        ensures rises { steps.old.taken ≤ steps.new.taken }
    {
        let ranges = merged(alloc, &mut ranges)?;
        let starts = starts_of(alloc, top, ranges.as_slice())?;
        let spans = spans_of(alloc, starts.as_slice(), ranges.as_slice())?;
        let mut partition = partition_by(alloc, starts.len(), spans.as_slice(), steps)?;
        let firsts = partition.number(alloc)?;
        Ok(Dimension {
            starts,
            classes: partition.classes,
            firsts,
            spans,
        })
    }

    /// How many classes there are, which is at least one.
    pub fn count(&self) -> usize
        ensures { result ≡ class_count self.now }
    {
        self.firsts.len()
    }

    /// The class of a number that is at most the top.
    pub fn class_at(&self, number: u128) -> usize
        ensures { result ≡ class_at self.now number }
    {
        let behind = self.starts.partition_point(|start| *start <= number);
        self.classes[behind.saturating_sub(1)]
    }

    /// The least number of the class.
    pub fn member(&self, class: usize) -> u128
        requires { class < class_count self.now }
        ensures { result ≡ member_of self.now class }
    {
        self.starts[self.firsts[class]]
    }

    /// The classes of each of the sets below `sets`. It takes a step for each interval of each set.
    ///
    /// # Errors
    /// `Stopped::Spent` where it wants more steps than are left, and `Stopped::NoMemory`.
    pub fn bits(&self, alloc: Global, sets: usize, steps: &mut Steps) -> Result<SetBits, Stopped>
        ensures sets { IfOk result (λ bits. bits.sets ≡ sets) }
        ensures words { IfOk result (λ bits. bits.per_set ≡ (class_count self.now + 63) / 64) }
        ensures classes { IfOk result (λ bits. (set class : ℕ) → set < sets
            → (has (set_words bits set) class ≡ true) ↔ HasClass self.now set class) }
        ensures below { IfOk result (λ bits. (set class : ℕ) → set < sets
            → has (set_words bits set) class ≡ true → class < class_count self.now) }
        ensures counted { OnOk result (steps.new.taken ≡ steps.old.taken + interval_count self.now.spans.items) }
        ensures spent { IsErrOf result Stopped.Spent → IsSpent steps.new }
        ensures most { steps.new.most ≡ steps.old.most }
        ensures rises { steps.old.taken ≤ steps.new.taken }
    {
        let mut bits = SetBits::new(alloc, sets, self.count())?;
        for span in &self.spans {
            steps.take((span.to - span.from) as u64)?;
            bits.put(span.set, &self.classes[span.from..span.to]);
        }
        Ok(bits)
    }
}
