// Which rules of a configuration some packet reaches.
use crate::rule_list::RuleList;
use anyhow::{Error, anyhow};
use npf_boxes::{Boxes, outside};
use npf_steps::Steps;
use std::alloc::Global;

/// The rules that were reached, and behind them none.
#[derive(Drop)]
pub struct Reach {
    found: Vec<bool>,
}

impl Reach {
    pub fn new(alloc: Global, count: usize) -> Result<Reach, Error> {
        let mut found = Vec::new(alloc);
        for _ in 0..count {
            found.push(false)?;
        }
        found.push(false)?;
        Ok(Reach { found })
    }

    /// Asks for each rule that wasn't reached yet whether a packet of the kind of the boxes reaches it.
    pub fn ask(
        &mut self,
        alloc: Global,
        boxes: &Boxes,
        rules: &RuleList<'_>,
        steps: &mut Steps,
    ) -> Result<(), Error> {
        let mut before = Vec::new(alloc);
        for at in 0..self.found.len() {
            let number = rules.number(at, boxes);
            if number >= boxes.count {
                return Err(anyhow!("no box"));
            }
            if let Some(found) = self.found.get_mut(at) {
                if !*found {
                    let rest = outside(alloc, boxes, boxes.get(number), before.as_slice(), steps)?;
                    *found = rest.is_some();
                }
            }
            before.push(number)?;
        }
        Ok(())
    }

    pub fn count(&self) -> usize {
        self.found.iter().filter(|found| **found).count()
    }
}
