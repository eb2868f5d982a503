// Rules by the words of npf.conf(5) for what a program tests, with numbers in place of names.

use anyhow::{Context, Result, anyhow};
use npf_model::{AddrItem, Ends, Rule, StateOpt};
use npf_types::{Addr, Decision, List, Prefix, Return};
use std::alloc::Global;

/// The rule of the clauses between semicolons. Without one it passes all.
pub fn parse_rule(alloc: Global, text: &str) -> Result<Rule> {
    let mut rule = pass_all(alloc);
    for clause in text.split(';') {
        let words: Vec<&str> = clause.split_whitespace().collect(alloc)?;
        add_clause(alloc, &mut rule, &words)?;
    }
    Ok(rule)
}

fn pass_all(alloc: Global) -> Rule {
    Rule {
        decision: Decision::Pass,
        state: StateOpt::Not,
        dir: None,
        last: false,
        on: None,
        v6: None,
        protos: List::of_vec(Vec::new(alloc)),
        flags: None,
        icmp: None,
        from: any(),
        to: any(),
        procedure: None,
    }
}

fn any() -> Ends {
    Ends {
        excluded: false,
        addrs: None,
        ports: None,
    }
}

fn add_clause(alloc: Global, rule: &mut Rule, words: &[&str]) -> Result<()> {
    match *words {
        ["pass"] => rule.decision = Decision::Pass,
        ["block"] => rule.decision = Decision::Block(Return::Nothing),
        ["stateful"] => rule.state = StateOpt::OnInterface,
        ["inet4"] => rule.v6 = Some(false),
        ["inet6"] => rule.v6 = Some(true),
        ["proto", ref numbers @ ..] => rule.protos = parse_protocols(alloc, numbers)?,
        ["flags", set, mask] => rule.flags = Some((set.parse()?, mask.parse()?)),
        ["icmp-type", kind] => rule.icmp = Some((kind.parse()?, None)),
        ["icmp-type", kind, "code", code] => {
            rule.icmp = Some((kind.parse()?, Some(code.parse()?)));
        }
        ["from", ref ends @ ..] => add_ends(alloc, &mut rule.from, ends)?,
        ["to", ref ends @ ..] => add_ends(alloc, &mut rule.to, ends)?,
        _ => return Err(anyhow!("no such clause")),
    }
    Ok(())
}

fn parse_protocols(alloc: Global, words: &[&str]) -> Result<List<u8>> {
    let mut numbers = Vec::new(alloc);
    for word in words {
        numbers.push(word.parse()?)?;
    }
    Ok(List::of_vec(numbers))
}

/// Adds ports behind the word `port`, and otherwise blocks and tables, excluded behind the word `not`.
fn add_ends(alloc: Global, ends: &mut Ends, words: &[&str]) -> Result<()> {
    match *words {
        ["port", ref ports @ ..] => ends.ports = Some(parse_ports(alloc, ports)?),
        ["not", ref items @ ..] => {
            ends.excluded = true;
            ends.addrs = Some(parse_items(alloc, items)?);
        }
        _ => ends.addrs = Some(parse_items(alloc, words)?),
    }
    Ok(())
}

fn parse_ports(alloc: Global, words: &[&str]) -> Result<List<(u16, u16)>> {
    let mut ranges = Vec::new(alloc);
    for word in words {
        add_ports(&mut ranges, word)?;
    }
    Ok(List::of_vec(ranges))
}

/// Adds a port, a range `FIRST-LAST`, or so many ports from the first on, each two behind the one before: `COUNT*FIRST`.
fn add_ports(ranges: &mut Vec<(u16, u16)>, word: &str) -> Result<()> {
    let Some((count, first)) = word.split_once('*') else {
        let (first, last) = word.split_once('-').unwrap_or((word, word));
        ranges.push((first.parse()?, last.parse()?))?;
        return Ok(());
    };
    for port in (first.parse::<u16>()?..=u16::MAX)
        .step_by(2)
        .take(count.parse()?)
    {
        ranges.push((port, port))?;
    }
    Ok(())
}

fn parse_items(alloc: Global, words: &[&str]) -> Result<List<AddrItem>> {
    let mut items = Vec::new(alloc);
    for word in words {
        add_items(&mut items, word)?;
    }
    Ok(List::of_vec(items))
}

/// Adds a table `<NUMBER>`, a block `ADDRESS/LENGTH`, or so many blocks of 256 addresses of IPv4 from one on: `COUNT*ADDRESS`.
fn add_items(items: &mut Vec<AddrItem>, word: &str) -> Result<()> {
    if let Some(number) = word.strip_prefix("<") {
        items.push(AddrItem::InTable(number.trim_end_matches('>').parse()?))?;
        return Ok(());
    }
    let Some((count, first)) = word.split_once('*') else {
        let (addr, len) = word.split_once('/').context("a block has a length")?;
        items.push(block(parse_addr(addr)?, len.parse()?)?)?;
        return Ok(());
    };
    let Addr::V4(first) = parse_addr(first)? else {
        return Err(anyhow!("no address of IPv4"));
    };
    for number in 0..count.parse::<u32>()? {
        let addr = first.wrapping_add(number.wrapping_mul(256));
        items.push(block(Addr::V4(addr), 24)?)?;
    }
    Ok(())
}

fn parse_addr(word: &str) -> Result<Addr> {
    Addr::parse_ascii(word.as_bytes()).context("no address")
}

fn block(addr: Addr, len: u8) -> Result<AddrItem> {
    let prefix = Prefix::of(addr, len).context("a length past the family's width")?;
    Ok(AddrItem::Net(prefix))
}
