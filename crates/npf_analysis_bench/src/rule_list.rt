// The rules of one configuration among the boxes of several.
use npf_boxes::Boxes;

/// Rules in the order of precedence, whose boxes stand from a first one on; behind them stands none, whose box is the last of all. `effects` has
/// a number for each, equal where the effects are.
#[derive(Clone, Copy)]
pub struct RuleList<'a> {
    pub first: usize,
    pub count: usize,
    pub effects: &'a [u64],
}

impl RuleList<'_> {
    /// The number of the box at a place.
    pub fn number(&self, at: usize, boxes: &Boxes) -> usize {
        if at < self.count {
            self.first.saturating_add(at)
        } else {
            boxes.count.saturating_sub(1)
        }
    }

    /// Whether what stands there has the box and the effect of what stands in another list.
    pub fn has_same(&self, at: usize, other: &RuleList<'_>, place: usize, boxes: &Boxes) -> bool {
        let (own, theirs) = (self.number(at, boxes), other.number(place, boxes));
        own < boxes.count
            && theirs < boxes.count
            && self.effects.get(at) == other.effects.get(place)
            && boxes.get(own) == boxes.get(theirs)
    }
}
