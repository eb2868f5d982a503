// Texts of random shapes: every optional part of a rule is there or not, and lists have any length from one to six.
use std::alloc::{AllocError, Global};

/// Numbers that look random, the same for each seed (Knuth's 64-bit linear congruential generator).
#[derive(Debug, Drop)]
pub struct Draws {
    state: u64,
}

impl Draws {
    pub fn new(seed: u64) -> Draws {
        Draws { state: seed }
    }

    /// A number below `most`, or 0.
    fn below(&mut self, most: u64) -> u64 {
        self.state = self
            .state
            .wrapping_mul(6_364_136_223_846_793_005)
            .wrapping_add(1_442_695_040_888_963_407);
        if most == 0 {
            return 0;
        }
        (self.state >> 33) % most
    }

    fn choice<'a>(&mut self, words: &[&'a str]) -> &'a str {
        let place = self.below(words.len() as u64) as usize;
        match words.get(place) {
            Some(word) => word,
            None => "",
        }
    }
}

const ACTIONS: [&str; 5] = [
    "pass",
    "block",
    "block return",
    "block return-rst",
    "block return-icmp",
];

const STATES: [&str; 3] = ["", " stateful", " stateful-all"];

const DIRS: [&str; 3] = ["", " in", " out"];

const FINALS: [&str; 2] = ["", " final"];

const PLACES: [&str; 5] = ["", " on wm0", " on \"wm1\"", " on \"a-\"", " on lo0"];

const PROTOCOLS: [&str; 6] = [
    "",
    " proto tcp",
    " proto { tcp, 17 }",
    " proto { 6 }",
    " proto tcp flags S/SAFR",
    " proto tcp flags FUWE",
];

const APPLIES: [&str; 3] = ["", " apply \"log\"", " apply \"all of it\""];

const PORTS: [&str; 6] = ["ssh", "80", "1024-65535", "7-7", "0", "bootps"];

const HEAD: &str = "table <a> type ipset
table <b.c-d> type lpm file \"entries of b\"
procedure \"log\" { log: npflog0 }
procedure \"all of it\" { log: \"x-\"; normalize: \"no-df\", \"max-mss\" 1400, \"min-ttl\" 64 }
map wm0 dynamic 10.0.0.0/8 -> 192.0.2.1 port 1024-65535 pass proto { udp, tcp } to any port { 53, 80-90 }
map \"a-\" static 2001:db8::/32 <-> fd00::/32
group default { block all }
group \"g\" in on \"wm1\" {
";

/// A configuration with twenty rules of random shapes.
pub fn text_of(alloc: Global, draws: &mut Draws) -> Result<String, AllocError> {
    let mut text = String::from_str(alloc, HEAD)?;
    for _ in 0..20 {
        push_rule(alloc, draws, &mut text)?;
    }
    text.push_str("}\n")?;
    Ok(text)
}

fn push_rule(alloc: Global, draws: &mut Draws, text: &mut String) -> Result<(), AllocError> {
    text.push_str(draws.choice(&ACTIONS))?;
    text.push_str(draws.choice(&STATES))?;
    text.push_str(draws.choice(&DIRS))?;
    text.push_str(draws.choice(&FINALS))?;
    text.push_str(draws.choice(&PLACES))?;
    text.push_str(draws.choice(&PROTOCOLS))?;
    push_ends(alloc, draws, text)?;
    text.push_str(draws.choice(&APPLIES))?;
    text.push_str("\n")?;
    Ok(())
}

fn push_ends(alloc: Global, draws: &mut Draws, text: &mut String) -> Result<(), AllocError> {
    let sides = draws.below(4);
    if sides == 0 {
        text.push_str(" all")?;
    }
    if sides == 1 || sides == 3 {
        push_end(alloc, draws, " from", text)?;
    }
    if sides >= 2 {
        push_end(alloc, draws, " to", text)?;
    }
    Ok(())
}

fn push_end(
    alloc: Global,
    draws: &mut Draws,
    word: &str,
    text: &mut String,
) -> Result<(), AllocError> {
    text.push_str(word)?;
    let parts = draws.below(4);
    match parts {
        0 => text.push_str(" any")?,
        1 | 2 => push_list(alloc, draws, Element::Address, text)?,
        _ => {}
    }
    if parts >= 2 {
        text.push_str(" port")?;
        push_list(alloc, draws, Element::Port, text)?;
    }
    Ok(())
}

/// What a list is of.
#[derive(Clone, Copy, Debug)]
enum Element {
    Address,
    Port,
}

fn push_list(
    alloc: Global,
    draws: &mut Draws,
    element: Element,
    text: &mut String,
) -> Result<(), AllocError> {
    text.push_str(" { ")?;
    let others = draws.below(6);
    for _ in 0..others {
        push_element(alloc, draws, element, text)?;
        text.push_str(", ")?;
    }
    push_element(alloc, draws, element, text)?;
    text.push_str(" }")?;
    Ok(())
}

fn push_element(
    alloc: Global,
    draws: &mut Draws,
    element: Element,
    text: &mut String,
) -> Result<(), AllocError> {
    match element {
        Element::Port => text.push_str(draws.choice(&PORTS)),
        Element::Address => {
            let address = address(alloc, draws)?;
            text.push_str(address.as_str())
        }
    }
}

// Each list has an element of either family, since a table has both.
fn address(alloc: Global, draws: &mut Draws) -> Result<String, AllocError> {
    let (a, b) = (draws.below(256), draws.below(65_536));
    let (v4, v6) = (b % 33, a % 129);
    match draws.below(6) {
        0 => String::from_str(alloc, "<a>"),
        1 => String::from_str(alloc, "<b.c-d>, 0.0.0.0/0"),
        2 => format!(in alloc; "<a>, {a}.0.{a}.255"),
        3 => format!(in alloc; "<a>, {a}.1.2.3/{v4}"),
        4 => format!(in alloc; "<a>, 2001:db8::{b:x}:0/{v6}"),
        _ => format!(in alloc; "ifaddrs(wm0), {b:x}::{a:x}"),
    }
}
