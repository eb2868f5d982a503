// Words that rows of several subjects have.

use anyhow::{Context, Result, anyhow};
use npf_core::ConnId;
use npf_types::{Addr, Segment, Way};

/// A way: `there`, `back` or `port`.
pub fn parse_way(word: &str) -> Result<Way> {
    match word {
        "there" => Ok(Way::Forward),
        "back" => Ok(Way::Backward),
        "port" => Ok(Way::Port),
        _ => Err(anyhow!("a way is there, back or port")),
    }
}

pub fn way_text(way: Way) -> &'static str {
    match way {
        Way::Forward => "there",
        Way::Backward => "back",
        Way::Port => "port",
    }
}

/// An identity, `SLOT.INCARNATION`.
pub fn parse_id(word: &str) -> Result<ConnId> {
    let (slot, inc) = word
        .split_once('.')
        .context("an identity is SLOT.INCARNATION")?;
    Ok(ConnId {
        slot: slot.parse()?,
        inc: inc.parse()?,
    })
}

pub fn parse_addr(word: &str) -> Result<Addr> {
    Addr::parse_ascii(word.as_bytes()).context("no address")
}

/// A segment, `FLAGS SEQ ACK WIN LEN` and maybe `SCALE`.
pub fn parse_segment(words: &[&str]) -> Result<Segment> {
    match *words {
        [flags, seq, ack, win, len] => segment([flags, seq, ack, win, len], None),
        [flags, seq, ack, win, len, scale] => {
            segment([flags, seq, ack, win, len], Some(scale.parse()?))
        }
        _ => Err(anyhow!("a segment is FLAGS SEQ ACK WIN LEN, and maybe SCALE")),
    }
}

fn segment([flags, seq, ack, win, len]: [&str; 5], scale: Option<u8>) -> Result<Segment> {
    Ok(Segment {
        flags: parse_flags(flags)?,
        seq: seq.parse()?,
        ack: ack.parse()?,
        win: win.parse()?,
        len: len.parse()?,
        scale,
    })
}

/// The flags that these letters name, or none at `-`.
pub fn parse_flags(word: &str) -> Result<u8> {
    let mut flags = 0;
    for letter in word.chars() {
        flags |= flag(letter)?;
    }
    Ok(flags)
}

/// A flag's bit in the header (RFC 9293 section 3.1).
fn flag(letter: char) -> Result<u8> {
    match letter {
        '-' => Ok(0),
        'F' => Ok(0x01),
        'S' => Ok(0x02),
        'R' => Ok(0x04),
        'P' => Ok(0x08),
        'A' => Ok(0x10),
        _ => Err(anyhow!("flags are letters of FSRPA, or -")),
    }
}
