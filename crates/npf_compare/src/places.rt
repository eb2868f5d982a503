// Places of rules: in the order of inspection, and in that of precedence.
ghost use Rattle.std.specs.Prelude.{◌≡◌, ◌<◌, ◌⊎◌, ℕ, false, true, All, AllPairs, Contains, IfOk, length, slice_index, slice_index_or};
ghost use Rattle.npf_judge.specs.Place.{IsRulePlace};
ghost use Rattle.npf_compare.specs.Side.{AreOrderPlaces};

use npf_precedence::RuleEntry;
use npf_types::NoMemory;
use std::alloc::Global;

/// The place in the order of each rule, by its place in the order of inspection, and behind them that of none.
pub(crate) fn order_places(alloc: Global, order: &[RuleEntry<'_>]) -> Result<Vec<usize>, NoMemory>
    requires below { (at place : ℕ) → IsRulePlace order.now at place → place < length order.now }
    requires once { (one other place : ℕ) → IsRulePlace order.now one place → IsRulePlace order.now other place → one ≡ other }
    ensures { IfOk result (λ places. AreOrderPlaces order.now places.items) }
{
    let mut places = vec![in alloc; order.len(); order.len() + 1]?;
    for (at, entry) in order.iter().enumerate() {
        places[entry.place] = at;
    }
    Ok(places)
}

/// Which of so many places are among these.
pub(crate) fn marks(alloc: Global, count: usize, places: &[usize]) -> Result<Vec<bool>, NoMemory>
    requires { All (λ place. place < count) places.now }
    ensures { IfOk result (λ marks. (k : ℕ) → slice_index_or marks.items k false ≡ true → Contains places.now k) }
{
    let mut marks = vec![in alloc; false; count]?;
    for place in places {
        marks[*place] = true;
    }
    Ok(marks)
}

/// Whether the place is marked.
pub(crate) fn is_marked(marks: &[bool], place: usize) -> bool
    ensures { result ≡ slice_index_or marks.now place false }
{
    match marks.get(place) {
        Some(mark) => *mark,
        None => false,
    }
}

/// The places in the order of inspection whose place in that of precedence isn't marked.
pub(crate) fn unmarked(alloc: Global, at: &[usize], marks: &[bool]) -> Result<Vec<usize>, NoMemory>
    ensures within { IfOk result (λ places. All (λ place. place < length at.now) places.items) }
    ensures rising { IfOk result (λ places. AllPairs (λ one next. one < next) places.items) }
    ensures whole { IfOk result (λ places. (k : ℕ) → k < length at.now → (slice_index_or marks.now (slice_index at.now k) false ≡ true) ⊎ Contains places.items k) }
{
    let mut places = Vec::new(alloc);
    for place in 0..at.len() {
        if !is_marked(marks, at[place]) {
            places.push(place)?;
        }
    }
    Ok(places)
}
