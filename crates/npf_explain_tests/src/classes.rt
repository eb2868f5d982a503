// What classes mean.
use crate::loads::{Setting, ifaces};
use crate::packet::Packet;
use crate::tell::part_word;
use anyhow::{Result, bail};
use npf_class::{MAX_CLASS_BYTES, read_class};
use npf_faults::Refused;
use npf_fixtures::texts::unescaped;
use npf_model::Rule;
use npf_ruleset::{Config, Placed, rule_misfit};
use std::alloc::Global;

/// The part of the class that the packet doesn't fit, `in` where it fits all, or the class's fault.
pub fn class_answer(
    alloc: Global,
    setting: &Setting,
    packet: &Packet,
    text: &str,
) -> Result<String> {
    let config = setting.config(alloc)?;
    let text = unescaped(alloc, text)?;
    if text.len() > MAX_CLASS_BYTES {
        bail!("the class is too long");
    }
    match read_class(alloc, text.as_slice(), config.model(), &ifaces(alloc)?) {
        Ok(class) => Ok(String::from_str(alloc, member(&config, packet, &class))?),
        Err(Refused::Fault(fault)) => Ok(format!(in alloc;
            "{}:{}: {} {}",
            fault.span.line,
            fault.span.col,
            fault.fault.number(),
            fault.fault.name()
        )?),
        Err(Refused::NoMemory) => bail!("out of memory"),
    }
}

fn member(config: &Config, packet: &Packet, class: &Rule) -> &'static str {
    let placed = Placed {
        within_dir: None,
        within_on: None,
        rule: class,
    };
    match rule_misfit(
        &placed,
        config.tables(),
        &packet.facts,
        packet.ifid,
        packet.dir,
    ) {
        Some(part) => part_word(part),
        None => "in",
    }
}
