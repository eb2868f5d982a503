// Which pairs of rules of two configurations with different effects decide on one packet.
use crate::common::Common;
use crate::question::Question;
use crate::rule_list::RuleList;
use anyhow::{Error, anyhow};
use npf_boxes::Boxes;
use npf_steps::Steps;
use std::alloc::Global;

/// The pairs that were found, by places in both lists.
#[derive(Drop)]
pub struct Pairs {
    found: Vec<(usize, usize)>,
}

impl Pairs {
    pub fn new(alloc: Global) -> Pairs {
        Pairs {
            found: Vec::new(alloc),
        }
    }

    pub fn count(&self) -> usize {
        self.found.len()
    }

    /// Asks for each pair that wasn't found yet whether it decides on a packet of the kind of the boxes. Two rules that both lists have in
    /// common, in one order, don't.
    pub fn ask(
        &mut self,
        alloc: Global,
        boxes: &Boxes,
        old: &RuleList<'_>,
        new: &RuleList<'_>,
        steps: &mut Steps,
    ) -> Result<(), Error> {
        let common = Common::of(alloc, boxes, old, new)?;
        let mut before = Vec::new(alloc);
        for i in 0..old.effects.len() {
            let question = Question {
                boxes,
                old: *old,
                new: *new,
                before: before.as_slice(),
            };
            self.ask_row(alloc, &question, &common, i, steps)?;
            let number = old.number(i, boxes);
            if number >= boxes.count {
                return Err(anyhow!("no box"));
            }
            before.push(number)?;
        }
        Ok(())
    }

    // The pairs of one rule of the first list.
    fn ask_row(
        &mut self,
        alloc: Global,
        question: &Question<'_>,
        common: &Common,
        i: usize,
        steps: &mut Steps,
    ) -> Result<(), Error> {
        for j in 0..question.new.effects.len() {
            if question.is_asked(common, i, j)
                && !self.found.contains(&(i, j))
                && question.has_packet(alloc, i, j, steps)?
            {
                self.found.push((i, j))?;
            }
        }
        Ok(())
    }
}
