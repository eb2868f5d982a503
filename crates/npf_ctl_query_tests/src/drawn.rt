// Drawn questions: each rule that an answer names decides on the packet that it gives, which is of the class; and the decider of each packet of a
// small space, if that is of the class, is named.
use crate::brute::{Found, decider};
use crate::classes::{has_packet, rule_of};
use crate::configs::{drawn_class, drawn_config};
use crate::draws::Draws;
use crate::loads::load_text;
use crate::packets::{Packet, all_packets};
use anyhow::{Context, Result, anyhow, ensure};
use npf_ctl_class::tables_of;
use npf_judge::ask;
use npf_model::Rule;
use npf_ruleset::Config;
use npf_steps::Steps;
use std::alloc::Global;

/// Asks about so many classes, each under a configuration of its own.
pub fn ask_drawn(alloc: Global, words: &str) -> Result<u64> {
    let (seed, count) = words.split_once(' ').context("no count")?;
    let mut draws = Draws::new(seed.parse::<u64>()?);
    let count = count.parse::<u64>()?;
    let packets = all_packets(alloc)?;
    for number in 0..count {
        let text = drawn_config(alloc, &mut draws)?;
        let class = drawn_class(alloc, &mut draws)?;
        ask_text(alloc, text.as_str(), class.as_str(), packets.as_slice()).context(format_args!(
            "draw {number}: {text}{class}"
        ))?;
    }
    Ok(count)
}

fn ask_text(alloc: Global, text: &str, class: &str, packets: &[Packet]) -> Result<()> {
    let config = load_text(alloc, text.as_bytes())?;
    let class = rule_of(alloc, &config, class)?;
    let tables = tables_of(alloc, &config)?;
    let mut steps = Steps::new(1_000_000_000);
    let answer = ask(alloc, config.model(), tables.as_slice(), &class, &mut steps).map_err(
        |stopped| anyhow!("{stopped:?}"),
    )?;
    let found = Found::of(alloc, &answer)?;
    check_given(alloc, &config, &class, &found)?;
    for packet in packets {
        if has_packet(&config, &class, packet) {
            let rule = decider(alloc, &config, packet)?;
            ensure!(found.has(rule), "a decider isn't named: {rule:?}");
        }
    }
    Ok(())
}

fn check_given(alloc: Global, config: &Config, class: &Rule, found: &Found) -> Result<()> {
    for (rule, packet) in found.pairs() {
        ensure!(
            has_packet(config, class, packet),
            "of another class: {rule:?}"
        );
        ensure!(
            decider(alloc, config, packet)? == *rule,
            "not its decider: {rule:?}"
        );
    }
    Ok(())
}
