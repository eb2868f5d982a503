// What is told of classes.
use crate::loads::{Setting, run_ifaces};
use anyhow::Result;
use npf_ctl_class::class_of;
use npf_ctl_messages::{CommandFault, message};
use npf_ctl_query::{ClassAnswer, query_class};
use npf_fixtures::texts::unescaped;
use npf_ruleset::Config;
use std::alloc::Global;

/// The lines of the answer, or of the fault, each indented.
pub fn told(alloc: Global, setting: &Setting, class: &str, most: u64) -> Result<String> {
    let class = unescaped(alloc, class)?;
    match answer(alloc, &setting.config(alloc)?, class.as_slice(), most) {
        Ok(answer) => indented(alloc, answer.text.as_slice()),
        Err(fault) => indented(alloc, message(alloc, &fault)?.as_slice()),
    }
}

/// The same without packets: of each line what is decided and by which rule, and what is said of the class.
pub fn told_deciders(alloc: Global, setting: &Setting, class: &str, most: u64) -> Result<String> {
    let mut lines = String::new(alloc);
    for line in told(alloc, setting, class, most)?.lines() {
        lines.push_str(decider_in(line))?;
        lines.push_str("\n")?;
    }
    Ok(lines)
}

/// What stands in a line before its packet, which begins with a direction.
fn decider_in(line: &str) -> &str {
    for way in [" in on ", " out on "] {
        if let Some((decider, _)) = line.split_once(way) {
            return decider;
        }
    }
    line
}

fn answer(
    alloc: Global,
    config: &Config,
    class: &[u8],
    most: u64,
) -> Result<ClassAnswer, CommandFault> {
    let ifaces = run_ifaces(alloc)?;
    let class = class_of(alloc, class, config.model(), &ifaces)?;
    query_class(alloc, config, &ifaces, &class, most)
}

fn indented(alloc: Global, text: &[u8]) -> Result<String> {
    let mut lines = String::new(alloc);
    for line in String::from_utf8_lossy(alloc, text)?.lines() {
        lines.push_str("  ")?;
        lines.push_str(line)?;
        lines.push_str("\n")?;
    }
    Ok(lines)
}
