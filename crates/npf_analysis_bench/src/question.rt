// Whether a pair of rules of two configurations decides on one packet.
ghost use Rattle.std.specs.Prelude.{◌<◌, All, IfOk};

use crate::common::Common;
use crate::rule_list::RuleList;
use anyhow::{Error, anyhow};
use npf_boxes::{Boxes, meet, outside};
use npf_steps::Steps;
use std::alloc::Global;

/// Both lists, and the boxes of the first one's rules that stand before the pair's.
#[derive(Clone, Copy)]
pub struct Question<'a> {
    pub boxes: &'a Boxes,
    pub old: RuleList<'a>,
    pub new: RuleList<'a>,
    pub before: &'a [usize],
    ghost known: { All (λ number. number < boxes.now.count) before.now },
}

impl Question<'_> {
    /// Whether the pair's effects differ, and it isn't of two rules that both lists have in common.
    pub fn is_asked(&self, common: &Common, i: usize, j: usize) -> bool {
        !(common.has_old(i) && common.has_new(j))
            && self.old.effects.get(i) != self.new.effects.get(j)
    }

    /// Whether the pair decides on a packet of the kind of the boxes.
    pub fn has_packet(
        &self,
        alloc: Global,
        i: usize,
        j: usize,
        steps: &mut Steps,
    ) -> Result<bool, Error> {
        let boxes = self.boxes;
        let (one, other) = (self.old.number(i, boxes), self.new.number(j, boxes));
        if one >= boxes.count || other >= boxes.count {
            return Err(anyhow!("no box"));
        }
        let Some(both) = meet(alloc, &boxes.shape, boxes.get(one), boxes.get(other))? else {
            return Ok(false);
        };
        let others = self.others(alloc, j)?;
        let rest = outside(alloc, boxes, both.as_slice(), others.as_slice(), steps)?;
        Ok(rest.is_some())
    }

    // What stands before the pair in either list.
    fn others(&self, alloc: Global, j: usize) -> Result<Vec<usize>, Error>
        ensures { IfOk result (λ others. All (λ number. number < self.now.boxes.now.count) others.items) }
    {
        let mut others = self.before.to_vec(alloc)?;
        for at in 0..j {
            let number = self.new.number(at, self.boxes);
            if number >= self.boxes.count {
                return Err(anyhow!("no box"));
            }
            others.push(number)?;
        }
        Ok(others)
    }
}
