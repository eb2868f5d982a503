// The boxes of all kinds as bytes, for a program in C: words of 64 bits, the lowest byte first.
use crate::rule_list::RuleList;
use anyhow::{Error, anyhow};
use npf_boxes::Boxes;
use std::alloc::Global;

/// How many kinds there are, and for each where its dimensions begin in a box, the box of all packets, and for each configuration how many
/// rules it has, their effects and that of no rule, and the rules' boxes.
#[derive(Drop)]
pub struct BoxesFile {
    bytes: Vec<u8>,
}

impl BoxesFile {
    pub fn new(alloc: Global, kinds: usize) -> Result<BoxesFile, Error> {
        let mut file = BoxesFile {
            bytes: Vec::new(alloc),
        };
        file.put(kinds as u64)?;
        Ok(file)
    }

    /// Puts the boxes of a kind behind the others.
    pub fn add(
        &mut self,
        boxes: &Boxes,
        old: &RuleList<'_>,
        new: &RuleList<'_>,
    ) -> Result<(), Error> {
        for start in &boxes.shape.starts {
            self.put(*start as u64)?;
        }
        self.put_box(boxes, boxes.count.saturating_sub(1))?;
        self.put_rules(boxes, old)?;
        self.put_rules(boxes, new)
    }

    fn put_rules(&mut self, boxes: &Boxes, rules: &RuleList<'_>) -> Result<(), Error> {
        self.put(rules.count as u64)?;
        for effect in rules.effects {
            self.put(*effect)?;
        }
        for at in 0..rules.count {
            self.put_box(boxes, rules.number(at, boxes))?;
        }
        Ok(())
    }

    fn put_box(&mut self, boxes: &Boxes, number: usize) -> Result<(), Error> {
        if number >= boxes.count {
            return Err(anyhow!("no box"));
        }
        for word in boxes.get(number) {
            self.put(*word)?;
        }
        Ok(())
    }

    fn put(&mut self, word: u64) -> Result<(), Error> {
        self.bytes.extend_from_slice(&word.to_le_bytes())?;
        Ok(())
    }

    pub fn bytes(&self) -> &[u8] {
        self.bytes.as_slice()
    }
}
