// What the rows before have left for those that follow.
use anyhow::{Context, Result};
use npf_types::Name;
use std::alloc::Global;

#[derive(Drop)]
pub struct Setting {
    /// Lines with the words that stand for them.
    pub lines: Vec<(String, String)>,
    /// The interfaces of the run.
    pub names: Vec<Name>,
    /// How many slots its table has.
    pub slots: u32,
}

impl Setting {
    pub fn new(alloc: Global) -> Setting {
        Setting {
            lines: Vec::new(alloc),
            names: Vec::new(alloc),
            slots: 0,
        }
    }

    /// From here on the word stands for the line.
    pub fn name_line(&mut self, alloc: Global, text: &str) -> Result<()> {
        let (word, line) = text.split_once(' ').context("no line")?;
        let named = (
            String::from_str(alloc, word)?,
            String::from_str(alloc, line)?,
        );
        self.lines.push(named)?;
        Ok(())
    }

    /// From here on the run has so many slots and these interfaces.
    pub fn begin_run(&mut self, alloc: Global, text: &str) -> Result<()> {
        let mut words = text.split_whitespace();
        self.slots = words.next().context("no slots")?.parse::<u32>()?;
        self.names = Vec::new(alloc);
        for word in words {
            self.names
                .push(Name::of(word.as_bytes()).context("no name")?)?;
        }
        Ok(())
    }
}
