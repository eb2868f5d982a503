// Configurations that are drawn: a table, two maps, groups bound to a direction or an interface, and rules that ask for everything that rules can.
use crate::draws::Draws;
use anyhow::Result;
use std::alloc::Global;
use std::fmt::Write;

const INTERFACES: [&str; 3] = ["wm0", "wm1", "wm2"];

const ADDRESSES: [&str; 7] = [
    "any",
    "10.0.0.0/8",
    "10.1.0.0/16",
    "192.0.2.1",
    "<b>",
    "! 10.1.0.0/16",
    "{ 10.0.0.1, 192.0.2.0/25 }",
];

const PORTS: [&str; 4] = ["22", "80", "{ 22, 1024-2048 }", "1024-65535"];

/// The text of a configuration.
pub fn drawn_config(alloc: Global, draws: &mut Draws) -> Result<String> {
    let mut text = String::new(alloc);
    write!(text, "table <b> type lpm file \"b\"\n")?;
    for arrow in ["->", "<-"] {
        write!(
            text,
            "map {} dynamic 10.0.0.1 {arrow} 192.0.2.1\n",
            draws.word(&INTERFACES)
        )?;
    }
    for number in 0..draws.below(3) {
        write!(text, "group \"g{number}\"{}", direction(draws))?;
        if draws.one_in(2) {
            write!(text, " on {}", draws.word(&INTERFACES))?;
        }
        put_rules(&mut text, draws)?;
    }
    write!(text, "group default")?;
    put_rules(&mut text, draws)?;
    Ok(text)
}

fn put_rules(text: &mut String, draws: &mut Draws) -> Result<()> {
    write!(text, " {{\n")?;
    for _ in 0..draws.below(5) {
        put_rule(text, draws)?;
    }
    write!(text, "}}\n")?;
    Ok(())
}

fn direction(draws: &mut Draws) -> &'static str {
    draws.word(&["", "", " in", " out"])
}

fn put_rule(text: &mut String, draws: &mut Draws) -> Result<()> {
    write!(
        text,
        "{}",
        draws.word(&["pass", "pass stateful", "block", "block return"])
    )?;
    write!(text, "{}", direction(draws))?;
    if draws.one_in(4) {
        write!(text, " final")?;
    }
    if draws.one_in(4) {
        write!(text, " on {}", draws.word(&INTERFACES))?;
    }
    if draws.one_in(4) {
        write!(text, " family inet4")?;
    }
    let ported = put_protocol(text, draws)?;
    put_ends(text, draws, ported)?;
    write!(text, "\n")?;
    Ok(())
}

/// Puts a protocol, or none, and tells whether ports may stand behind it.
fn put_protocol(text: &mut String, draws: &mut Draws) -> Result<bool> {
    let protocol = draws.word(&[
        "",
        "",
        " proto tcp",
        " proto udp",
        " proto tcp flags S/SA",
        " proto icmp",
        " proto icmp icmp-type 8",
    ]);
    write!(text, "{protocol}")?;
    Ok(protocol.contains("tcp") || protocol.contains("udp"))
}

fn put_ends(text: &mut String, draws: &mut Draws, ported: bool) -> Result<()> {
    if draws.one_in(4) {
        write!(text, " all")?;
        return Ok(());
    }
    for side in ["from", "to"] {
        write!(text, " {side} {}", draws.word(&ADDRESSES))?;
        if ported && draws.one_in(3) {
            write!(text, " port {}", draws.word(&PORTS))?;
        }
    }
    Ok(())
}
