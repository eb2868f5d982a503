// Texts that are drawn: configurations of a table and of groups that may be bound to an interface or a direction, and classes in the words of
// their rules.
use crate::draws::Draws;
use anyhow::Result;
use std::alloc::Global;
use std::fmt::Write;

const DECISIONS: [&str; 4] = ["pass", "pass stateful", "block", "block return"];

const BOUNDS: [&str; 6] = ["", "", " in", " out", " on wm0", " in on wm1"];

const FINALS: [&str; 6] = [
    "",
    "",
    " final",
    " on wm0",
    " final on wm1",
    " family inet4",
];

const PROTOCOLS: [&str; 8] = [
    "",
    "",
    " proto tcp",
    " proto udp",
    " proto tcp flags S/SA",
    " proto icmp",
    " proto icmp icmp-type 8",
    " proto { tcp, udp }",
];

const ENDS: [&str; 9] = [
    " all",
    " from 10.0.0.0/8",
    " from <b>",
    " from ! <b>",
    " to 192.0.2.1",
    " to ! 10.1.0.0/16",
    " from { 10.0.0.1, 192.0.2.0/25 } to any",
    " from 10.1.0.0/16 to <b>",
    " from any to { 10.0.0.1, 192.0.2.1 }",
];

/// The text of a configuration.
pub fn drawn_config(alloc: Global, draws: &mut Draws) -> Result<String> {
    let mut text = String::new(alloc);
    write!(text, "table <b> type lpm file \"b\"\n")?;
    for number in 0..draws.below(3) {
        write!(text, "group \"g{number}\"{}", draws.word(&BOUNDS))?;
        put_rules(&mut text, draws)?;
    }
    write!(text, "group default")?;
    put_rules(&mut text, draws)?;
    Ok(text)
}

fn put_rules(text: &mut String, draws: &mut Draws) -> Result<()> {
    write!(text, " {{\n")?;
    for _ in 0..draws.below(5) {
        write!(
            text,
            "{}{}",
            draws.word(&DECISIONS),
            draws.word(&["", " in", " out"])
        )?;
        write!(text, "{}{}", draws.word(&FINALS), drawn_filter(draws))?;
        write!(text, "{}\n", draws.word(&ENDS))?;
    }
    write!(text, "}}\n")?;
    Ok(())
}

/// The text of a class.
pub fn drawn_class(alloc: Global, draws: &mut Draws) -> Result<String> {
    let mut text = String::new(alloc);
    write!(
        text,
        "{}{}",
        draws.word(&["", "", "stateful"]),
        draws.word(&BOUNDS)
    )?;
    write!(text, "{}{}", drawn_filter(draws), draws.word(&ENDS))?;
    Ok(text)
}

fn drawn_filter(draws: &mut Draws) -> &'static str {
    draws.word(&PROTOCOLS)
}
