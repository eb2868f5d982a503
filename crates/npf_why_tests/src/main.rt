// What `npfctl why` says, configuration by configuration: each sentence, what could stand at a place, and near names.
//
// Standard input has a line each: `ifaces TEXT` is the file of interfaces from there on, `table: TEXT` that of the table file t.txt, and
// `times N FRONT|ITEM|END` is a configuration with an item so often, and any other line one as it stands, in which `\n` ends a line. What is
// said of its fault is printed, and nothing of one without.
#![tactic(auto)]

use anyhow::{Context, Result, bail};
use npf_config::{LoadFault, load};
use npf_ctl_messages::CommandFault;
use npf_ctl_why::explanation;
use npf_expand_interfaces::read_ifaces;
use npf_fixtures::texts::unescaped;
use npf_model::Ifaces;
use npf_outside::MemFiles;
use npf_types::List;
use npf_types::limits::MAX_TEXT_BYTES;
use std::alloc::Global;
use std::io::{BufRead, BufReader};
use std::str;

fn main(rt: HostRuntime) -> Result<()> {
    let alloc = rt.alloc();
    let mut ifaces = Ifaces {
        list: List::of_vec(Vec::new(alloc)),
    };
    let mut table = Vec::new(alloc);
    for line in BufReader::new(alloc, rt.reader())?.lines(alloc) {
        let line = line?;
        let line = line.as_str();
        if line.is_empty() || line.starts_with('#') {
            continue;
        }
        match line.split_once(' ') {
            Some(("ifaces", text)) => {
                ifaces = given_ifaces(alloc, text)?;
            }
            Some(("table:", text)) => table = unescaped(alloc, text)?,
            Some(("times", text)) => {
                let text = repeated(alloc, text)?;
                answer(&rt, text.as_slice(), &ifaces, table.as_slice())?;
            }
            _ => {
                let text = unescaped(alloc, line)?;
                answer(&rt, text.as_slice(), &ifaces, table.as_slice())?;
            }
        }
    }
    Ok(())
}

/// The interfaces of a file of this text.
fn given_ifaces(alloc: Global, text: &str) -> Result<Ifaces> {
    let text = unescaped(alloc, text)?;
    if text.len() > MAX_TEXT_BYTES {
        bail!("the file of interfaces is too long");
    }
    match read_ifaces(alloc, text.as_slice()) {
        Ok(ifaces) => Ok(ifaces),
        Err(_) => bail!("the file of interfaces is refused"),
    }
}

/// The text of a row that has an item several times, each with its number for `%`.
fn repeated(alloc: Global, row: &str) -> Result<Vec<u8>> {
    let (count, parts) = row.split_once(' ').context("no count")?;
    let (front, behind) = parts.split_once('|').context("no item")?;
    let (item, end) = behind.split_once('|').context("no end")?;
    let mut text = unescaped(alloc, front)?;
    for number in 0..count.parse::<u32>()? {
        let item = numbered(alloc, item, number)?;
        text.extend_from_slice(unescaped(alloc, item.as_str())?.as_slice())?;
    }
    text.extend_from_slice(unescaped(alloc, end)?.as_slice())?;
    Ok(text)
}

fn numbered(alloc: Global, item: &str, number: u32) -> Result<String> {
    match item.split_once('%') {
        Some((front, end)) => Ok(format!(in alloc; "{front}{number}{end}")?),
        None => Ok(String::from_str(alloc, item)?),
    }
}

fn answer(
    rt: &(impl Print + AllocGlobal),
    text: &[u8],
    ifaces: &Ifaces,
    table: &[u8],
) -> Result<()> {
    let alloc = rt.alloc();
    if text.len() > MAX_TEXT_BYTES {
        bail!("the configuration is too long");
    }
    let mut files = MemFiles::new(alloc)?;
    files.put_file("t.txt", table)?;
    match load(alloc, text, ifaces, &mut files) {
        Ok(_) => println!(rt; "no fault\n")?,
        Err(LoadFault::Conf(fault)) => {
            let file = List::of_vec(b"c".as_slice().to_vec(alloc)?);
            let told = CommandFault::Configuration { file, fault };
            let said = explanation(alloc, &told, Some(text), ifaces)?;
            println!(rt; "{}", str::from_utf8(said.as_slice())?)?;
        }
        Err(_) => println!(rt; "unread\n")?,
    }
    Ok(())
}
