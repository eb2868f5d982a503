// What `npfctl explain` says of classes, row by row: a row for each part that a packet may not fit, for `final`, groups, rulesets, tables and maps both
// ways, classes without a packet, and their faults.
//
// Standard input has a line each. `config TEXT` is the configuration from there on, in which `\n` ends a line, and `rule TEXT` a rule that is added to its
// ruleset r; `steps N` is how many steps may be taken. `explain IF DIR CLASS` is printed with what is said. The interfaces are wm0 and wm1; the table file b has
// two entries. What stdout wants was found by hand.
#![tactic(auto)]

mod loads;

use anyhow::{Context, Result, bail};
use loads::{Setting, ifaces};
use npf_class::{MAX_CLASS_BYTES, read_class};
use npf_ctl_explain::{Explained, Passage, explain_text};
use npf_faults::Refused;
use npf_fixtures::texts::unescaped;
use npf_model::{Ifaces, OnIf, Rule, number_of_name};
use npf_ruleset::Config;
use npf_steps::{Steps, Stopped};
use npf_types::{Dir, Name};
use std::alloc::Global;
use std::io::{BufRead, BufReader};
use std::str;

/// What a command may take where no row says how many steps.
const MOST: u64 = 1_000_000_000;

fn main(rt: HostRuntime) -> Result<()> {
    let alloc = rt.alloc();
    let mut setting = Setting::new(alloc);
    let mut most = MOST;
    for (index, line) in BufReader::new(alloc, rt.reader())?.lines(alloc).enumerate() {
        answer_line(&rt, &mut setting, &mut most, &line?).context(format_args!(
            "line {}",
            index + 1
        ))?;
    }
    Ok(())
}

/// Prints the answer to a line, if it has a row.
fn answer_line(
    rt: &(impl Print + AllocGlobal),
    setting: &mut Setting,
    most: &mut u64,
    line: &str,
) -> Result<()> {
    if line.is_empty() || line.starts_with('#') {
        return Ok(());
    }
    println!(rt; "{line}")?;
    match line.split_once(' ') {
        Some(("config", text)) => setting.set_text(rt.alloc(), text),
        Some(("rule", text)) => setting.set_rule(rt.alloc(), text),
        Some(("steps", number)) => {
            *most = number.parse::<u64>()?;
            Ok(())
        }
        Some(("explain", words)) => {
            print!(rt; "{}", explained(rt.alloc(), setting, *most, words)?)?;
            Ok(())
        }
        _ => bail!("no such row"),
    }
}

/// What is said of a class, or why nothing is.
fn explained(alloc: Global, setting: &Setting, most: u64, words: &str) -> Result<String> {
    let (iface, behind) = words.split_once(' ').context("no interface")?;
    let (dir, class) = behind.split_once(' ').context("no direction")?;
    let name = Name::of(iface.as_bytes()).context("no name")?;
    let ifaces = ifaces(alloc)?;
    let passage = Passage {
        on: OnIf {
            name,
            id: number_of_name(ifaces.list.as_slice(), &name),
        },
        dir: read_dir(dir)?,
    };
    let config = setting.config(alloc)?;
    let text = unescaped(alloc, class)?;
    if text.len() > MAX_CLASS_BYTES {
        bail!("the class is too long");
    }
    match read_class(alloc, text.as_slice(), config.model(), &ifaces) {
        Ok(class) => told(alloc, &config, &ifaces, &class, passage, most),
        Err(Refused::Fault(fault)) => Ok(format!(in alloc;
            "{}:{}: {} {}\n",
            fault.span.line,
            fault.span.col,
            fault.fault.number(),
            fault.fault.name()
        )?),
        Err(Refused::NoMemory) => bail!("out of memory"),
    }
}

fn told(
    alloc: Global,
    config: &Config,
    ifaces: &Ifaces,
    class: &Rule,
    passage: Passage,
    most: u64,
) -> Result<String> {
    let mut steps = Steps::new(most);
    match explain_text(alloc, config, ifaces, class, passage, &mut steps) {
        Ok(said) => told_text(alloc, &said),
        Err(Stopped::Spent) => {
            Ok(format!(in alloc; "steps {} over {}\n", steps.taken(), steps.most())?)
        }
        Err(Stopped::NoMemory) => bail!("out of memory"),
    }
}

fn told_text(alloc: Global, said: &Explained) -> Result<String> {
    let text = str::from_utf8(said.text.as_slice())?;
    if said.found == (text == "empty\n") {
        bail!("found, and not told");
    }
    Ok(String::from_str(alloc, text)?)
}

fn read_dir(word: &str) -> Result<Dir> {
    match word {
        "in" => Ok(Dir::In),
        "out" => Ok(Dir::Out),
        _ => bail!("no direction"),
    }
}
