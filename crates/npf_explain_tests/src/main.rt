// What `explain` says of packets, row by row: a row for each part that a packet may not fit, for `final`, groups, rulesets, tables and maps; what
// classes mean; and drawn packets, whose decider must be the rule that a walk through the compiled rules finds.
//
// Standard input has a line each. `config TEXT` is the configuration from there on, in which `\n` ends a line, and `rule TEXT` a rule that is
// added to its ruleset r. `packet ..` is a packet, as src/packet.rt reads it, of which is printed what each group, rule and map says.
// `class TEXT` is printed with the part of the class that the packet before it doesn't fit, or with its fault; `drawn SEED COUNT` with how many
// packets were asked about. The interfaces are wm0 and wm1; the table file b has two entries. What stdout wants was found by hand.
#![tactic(auto)]

mod classes;
mod configs;
mod drawn;
mod draws;
mod loads;
mod packet;
mod tell;

use anyhow::{Context, Result, bail};
use classes::class_answer;
use drawn::ask_drawn;
use loads::{Setting, explained};
use packet::{Packet, read_packet};
use std::io::{BufRead, BufReader};
use tell::tell;

fn main(rt: HostRuntime) -> Result<()> {
    let alloc = rt.alloc();
    let mut setting = Setting::new(alloc);
    let mut packet = Packet::none();
    for (index, line) in BufReader::new(alloc, rt.reader())?.lines(alloc).enumerate() {
        answer_line(&rt, &mut setting, &mut packet, &line?).context(format_args!(
            "line {}",
            index + 1
        ))?;
    }
    Ok(())
}

/// Prints the answer to a line, if it has a row.
fn answer_line(
    rt: &(impl Print + AllocGlobal),
    setting: &mut Setting,
    packet: &mut Packet,
    line: &str,
) -> Result<()> {
    if line.is_empty() || line.starts_with('#') {
        return Ok(());
    }
    println!(rt; "{line}")?;
    match line.split_once(' ') {
        Some(("config", text)) => setting.set_text(rt.alloc(), text),
        Some(("rule", text)) => setting.set_rule(rt.alloc(), text),
        Some(("packet", words)) => {
            *packet = read_packet(rt.alloc(), words)?;
            let told = explained(rt.alloc(), setting, packet)?;
            print!(rt; "{}", tell(rt.alloc(), &told)?)?;
            Ok(())
        }
        Some(("class", text)) => {
            println!(rt; "  {}", class_answer(rt.alloc(), setting, packet, text)?)?;
            Ok(())
        }
        Some(("drawn", words)) => {
            println!(rt; "  {} asked", ask_drawn(rt.alloc(), words)?)?;
            Ok(())
        }
        _ => bail!("no such row"),
    }
}
