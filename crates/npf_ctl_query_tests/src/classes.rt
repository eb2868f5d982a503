// Classes, and whether packets are of them.
use crate::loads::run_ifaces;
use crate::packets::Packet;
use anyhow::{Result, anyhow, bail};
use npf_ctl_class::class_of;
use npf_model::Rule;
use npf_ruleset::{Config, Placed, rule_misfit};
use std::alloc::Global;

/// The rule of a class.
pub fn rule_of(alloc: Global, config: &Config, text: &str) -> Result<Rule> {
    let Ok(ifaces) = run_ifaces(alloc) else {
        bail!("the interfaces are refused");
    };
    match class_of(alloc, text.as_bytes(), config.model(), &ifaces) {
        Ok(rule) => Ok(rule),
        Err(fault) => Err(anyhow!("{fault:?}")),
    }
}

/// Whether the packet is of the class.
pub fn has_packet(config: &Config, class: &Rule, packet: &Packet) -> bool {
    let placed = Placed {
        within_dir: None,
        within_on: None,
        rule: class,
    };
    let tables = config.tables();
    rule_misfit(&placed, tables, &packet.facts, packet.ifid, packet.dir).is_none()
}
