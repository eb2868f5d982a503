// Intervals in classes that sets split, one after the other.
ghost use Rattle.std.specs.Prelude.{◌≡◌, ◌≤◌, ◌<◌, ◌+◌, ◌↔◌, ◌⊎◌, ℕ, List, IfOk, OnOk, IsErrOf, length, slice_index, slice_set, vec_len};
ghost use Rattle.std.specs.List.{All};
ghost use Rattle.npf_steps.specs.Spent.{IsSpent};
ghost use Rattle.npf_steps.specs.declared.steps.Stopped.TheVariants.{Spent};
ghost use Rattle.npf_cut.specs.Partition.{AreKnown, AreParts, IsNumbering, IsRefinedBy, RespectsSets};
ghost use Rattle.npf_cut.specs.Span.{IsRunOfSet, IsSpanWithin, interval_count};

use crate::span::SetSpan;
use npf_steps::{Steps, Stopped};
use npf_types::NoMemory;
use std::alloc::Global;

// No number of a class.
const NONE: usize = usize::MAX;

/// Intervals in classes. While a set splits them, the classes from a first fresh one on are the parts that it has of older ones.
#[derive(Drop)]
pub(crate) struct Partition {
    /// The class of each interval.
    pub(crate) classes: Vec<usize>,
    /// Of each class the part that the set has of it, if that is fresh; and of each fresh class the one that it is a part of.
    pub(crate) parts: Vec<usize>,
}

impl Partition {
    /// So many intervals in one class.
    fn new(alloc: Global, count: usize) -> Result<Partition, NoMemory>
        ensures count { IfOk result (λ partition. vec_len partition.classes ≡ count) }
        ensures known { IfOk result (λ partition. AreKnown partition.classes.items partition.parts.items) }
    {
        Ok(Partition {
            classes: vec![in alloc; 0; count]?,
            parts: vec![in alloc; 0; 1]?,
        })
    }

    /// Splits each class by the set that has these spans, and takes a step for each interval of the set.
    fn refine(&mut self, spans: &[SetSpan], steps: &mut Steps) -> Result<(), Stopped>
        requires known { AreKnown self.old.classes.items self.old.parts.items }
        requires within { All (IsSpanWithin (vec_len self.old.classes)) spans.now }
        ensures known { OnOk result (AreKnown self.new.classes.items self.new.parts.items) }
        ensures refined { OnOk result (IsRefinedBy spans.now self.old.classes.items self.new.classes.items) }
        ensures counted { OnOk result (steps.new.taken ≡ steps.old.taken + interval_count spans.now) }
        ensures spent { IsErrOf result Stopped.Spent → IsSpent steps.new }
        ensures most { steps.new.most ≡ steps.old.most }
        ensures rises { steps.old.taken ≤ steps.new.taken }
    {
        let fresh = self.parts.len();
        for span in spans {
            steps.take((span.to - span.from) as u64)?;
            self.split(*span, fresh)?;
        }
        Ok(())
    }

    /// Moves the intervals of the span to the parts of their classes.
    fn split(&mut self, span: SetSpan, fresh: usize) -> Result<(), NoMemory>
        requires within { IsSpanWithin (vec_len self.old.classes) span }
        requires room { fresh ≤ vec_len self.old.parts }
        ensures parts { OnOk result ((old : List ℕ) → AreParts old self.old.classes.items self.old.parts.items fresh
            → AreParts old self.new.classes.items self.new.parts.items fresh) }
        ensures moved { OnOk result ((k : ℕ) → k < vec_len self.old.classes
            → (fresh ≤ slice_index self.new.classes.items k)
            ↔ ((fresh ≤ slice_index self.old.classes.items k) ⊎ ((span.from ≤ k) × (k < span.to)))) }
        ensures same_len { OnOk result (vec_len self.new.classes ≡ vec_len self.old.classes) }
        ensures room { OnOk result (fresh ≤ vec_len self.new.parts) }
    {
        for interval in span.from..span.to {
            let class = self.classes[interval];
            if class < fresh {
                self.classes[interval] = part_of(&mut self.parts, class, fresh)?;
            }
        }
        Ok(())
    }

    /// Numbers the classes in the order of their first intervals, and tells these.
    pub(crate) fn number(&mut self, alloc: Global) -> Result<Vec<usize>, NoMemory>
        requires known { AreKnown self.old.classes.items self.old.parts.items }
        ensures known { OnOk result (AreKnown self.new.classes.items self.new.parts.items) }
        ensures numbers { IfOk result (λ firsts. IsNumbering self.old.classes.items self.new.classes.items firsts.items) }
    {
        let mut numbers = vec![in alloc; NONE; self.parts.len()]?;
        let mut firsts = Vec::new(alloc);
        for interval in 0..self.classes.len() {
            let class = self.classes[interval];
            if numbers[class] == NONE {
                numbers[class] = firsts.len();
                firsts.push(interval)?;
            }
            self.classes[interval] = numbers[class];
        }
        self.parts = vec![in alloc; 0; firsts.len()]?;
        Ok(firsts)
    }
}

/// The part that the set has of the class, which is a new one where there was none.
fn part_of(parts: &mut Vec<usize>, class: usize, fresh: usize) -> Result<usize, NoMemory>
    requires older { class < fresh }
    requires room { fresh ≤ vec_len parts.old }
    ensures parts { IfOk result (λ part. (old classes : List ℕ) (k : ℕ) → k < length classes → slice_index classes k ≡ class
        → AreParts old classes parts.old.items fresh → AreParts old (slice_set classes k part) parts.new.items fresh) }
    ensures fresh { IfOk result (λ part. fresh ≤ part) }
    ensures room { OnOk result (fresh ≤ vec_len parts.new) }
{
    if parts[class] < fresh {
        let part = parts.len();
        parts.push(class)?;
        parts[class] = part;
    }
    Ok(parts[class])
}

/// Intervals in the classes that the sets with these spans tell apart, of which each set has its spans side by side.
pub(crate) fn partition_by(
    alloc: Global,
    count: usize,
    spans: &[SetSpan],
    steps: &mut Steps,
) -> Result<Partition, Stopped>
    requires within { All (IsSpanWithin count) spans.now }
    ensures count { IfOk result (λ partition. vec_len partition.classes ≡ count) }
    ensures known { IfOk result (λ partition. AreKnown partition.classes.items partition.parts.items) }
    ensures respects { IfOk result (λ partition. RespectsSets spans.now partition.classes.items) }
    ensures counted { OnOk result (steps.old.taken + interval_count spans.now ≤ steps.new.taken) }
    ensures spent { IsErrOf result Stopped.Spent → IsSpent steps.new }
    ensures most { steps.new.most ≡ steps.old.most }
    ensures rises { steps.old.taken ≤ steps.new.taken }
{
    let mut partition = Partition::new(alloc, count)?;
    let mut from = 0;
    while from < spans.len() {
        let to = set_end(spans, from);
        partition.refine(&spans[from..to], steps)?;
        // The entries stay in proportion to the intervals.
        if partition.parts.len() / 2 > count {
            steps.take(count as u64)?;
            partition.number(alloc)?;
        }
        from = to;
    }
    Ok(partition)
}

/// The first place behind this one whose span isn't of the same set.
fn set_end(spans: &[SetSpan], from: usize) -> usize
    requires { from < length spans.now }
    ensures { IsRunOfSet spans.now from result }
{
    for to in from + 1..spans.len() {
        if spans[to].set != spans[from].set {
            return to;
        }
    }
    spans.len()
}
