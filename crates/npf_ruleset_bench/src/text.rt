// The rules of the bench as texts, and the packets that they match.
//
// Of the rules that are walked the first matches port 40000 alone and the last port 40001, both from the upper half of 10.0.0.0/8. Each of
// those between passes TCP or UDP from a block of the lower half to a port or a range of ports, as a draw says. Of the rules whose programs
// are run, rule r, from 0 on, passes UDP to port 1000 + r of 10.0.r.0/24.
use std::alloc::{AllocError, Global};
use std::fmt::Write;

/// The rule that matches a packet.
#[derive(Clone, Copy)]
pub enum Match {
    First,
    Last,
    Nowhere,
}

impl Match {
    /// As the lines of the bench call it.
    pub fn name(self) -> &'static str {
        match self {
            Match::First => "rules, first",
            Match::Last => "rules, last",
            Match::Nowhere => "rules, none",
        }
    }
}

const PORTS: [u16; 8] = [22, 53, 80, 123, 161, 443, 5060, 8080];

/// A draw follows from the one before it.
pub fn next(draw: u32) -> u32 {
    draw.wrapping_mul(1_664_525).wrapping_add(1_013_904_223)
}

/// The port that packets are sent to: that of the rule that is to match, or one of many.
pub fn port_for(matched: Match, draw: u32) -> u16 {
    match matched {
        Match::First => 40_000,
        Match::Last => 40_001,
        Match::Nowhere => PORTS[((draw >> 8) & 7) as usize],
    }
}

/// The text of so many rules to be walked.
pub fn walked(alloc: Global, count: u32) -> Result<String, AllocError> {
    let mut text = String::from_str(alloc, "group default {\n")?;
    let mut draw = 1;
    for place in 0..count {
        draw = next(draw);
        if place == 0 {
            text.push_str("pass proto udp from 10.128.0.0/9 to any port 40000\n")?;
        } else if place == count - 1 {
            text.push_str("pass proto udp from 10.128.0.0/9 to any port 40001\n")?;
        } else {
            add_walked(&mut text, draw)?;
        }
    }
    text.push_str("}\n")?;
    Ok(text)
}

fn add_walked(text: &mut String, draw: u32) -> Result<(), AllocError> {
    let proto = if draw & 0x8000_0000 == 0 {
        "tcp"
    } else {
        "udp"
    };
    let upper = (draw >> 24) & 127;
    let lower = (draw >> 16) & 255;
    let first = PORTS[((draw >> 8) & 7) as usize];
    let last = first + if draw & 0x4000_0000 == 0 { 0 } else { 50 };
    write!(text, "pass proto {proto} from 10.{upper}.{lower}.0/24 ")?;
    writeln!(text, "to any port {first}-{last}")?;
    Ok(())
}

/// The text of so many rules whose programs are run, at most 256.
pub fn run(alloc: Global, count: u32) -> Result<String, AllocError> {
    let mut text = String::from_str(alloc, "group default {\n")?;
    for rule in 0..count.min(256) {
        let port = 1000 + rule;
        writeln!(text, "pass proto udp to 10.0.{rule}.0/24 port {port}")?;
    }
    text.push_str("}\n")?;
    Ok(text)
}
