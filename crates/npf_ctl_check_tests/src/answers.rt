// What is told of files of expectations.
use crate::loads::{Setting, run_ifaces};
use anyhow::Result;
use npf_ctl_check::{CheckAnswer, check_expectations, read_asked_expectations};
use npf_ctl_messages::{CommandFault, message};
use npf_fixtures::texts::unescaped;
use npf_ruleset::Config;
use npf_types::limits::MAX_TEXT_BYTES;
use std::alloc::Global;

/// The file's name.
const FILE: &str = "e";

/// The lines of the answer, or of the fault, each indented; and behind an answer whether all is met.
pub fn told(alloc: Global, setting: &Setting, text: &str, most: u64) -> Result<String> {
    let text = unescaped(alloc, text)?;
    match answer(alloc, setting.config(alloc)?, text.as_slice(), most) {
        Ok(answer) => {
            let mut lines = indented(alloc, answer.text.as_slice())?;
            lines.push_str(if answer.failed == 0 {
                "  all are met\n"
            } else {
                "  not all are met\n"
            })?;
            Ok(lines)
        }
        Err(fault) => indented(alloc, message(alloc, &fault)?.as_slice()),
    }
}

fn answer(
    alloc: Global,
    config: Config,
    text: &[u8],
    most: u64,
) -> Result<CheckAnswer, CommandFault> {
    if text.len() > MAX_TEXT_BYTES {
        return Err(CommandFault::Usage);
    }
    let ifaces = run_ifaces(alloc)?;
    let asked = read_asked_expectations(alloc, FILE, text, ifaces, config)?;
    check_expectations(alloc, FILE, &asked, most)
}

fn indented(alloc: Global, text: &[u8]) -> Result<String> {
    let mut lines = String::new(alloc);
    for line in String::from_utf8_lossy(alloc, text)?.lines() {
        lines.push_str("  ")?;
        lines.push_str(line)?;
        lines.push_str("\n")?;
    }
    Ok(lines)
}
