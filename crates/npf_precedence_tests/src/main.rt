// The order in which rules decide, configuration by configuration: what no clause says of it, that its definition means what npf.conf(5),
// "Groups" and "Rules", says of groups, of `final` and of the last match.
//
// Standard input has a configuration a line, in which `\n` ends a line of it. Each is printed with the numbers of its rules, from 1 in the
// order of its text, in the order in which they decide, and with what the group of each is bound to. What stdout wants was found by hand.
#![tactic(auto)]

mod entry;
mod reading;

use anyhow::Result;
use entry::Numbered;
use npf_fixtures::texts::unescaped;
use npf_precedence::in_order;
use reading::model_of;
use std::io::{BufRead, BufReader};

fn main(rt: HostRuntime) -> Result<()> {
    for line in BufReader::new(rt.alloc(), rt.reader())?.lines(rt.alloc()) {
        answer_line(&rt, line?.as_str())?;
    }
    Ok(())
}

fn answer_line(rt: &(impl Print + AllocGlobal), line: &str) -> Result<()> {
    if line.is_empty() || line.starts_with('#') {
        return Ok(());
    }
    let text = unescaped(rt.alloc(), line)?;
    let model = model_of(rt.alloc(), text.as_slice())?;
    print!(rt; "{line} =>")?;
    for entry in in_order(rt.alloc(), model.groups.as_slice())?.as_slice() {
        print!(rt; " {}", Numbered(*entry))?;
    }
    println!(rt; "")?;
    Ok(())
}
