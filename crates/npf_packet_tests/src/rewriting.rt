// Packets that are normalised and then translated.
ghost use Rattle.std.specs.Prelude.{◌≡◌, length, IfOk};
ghost use Rattle.npf_rewrite.specs.Room.{HasRoom};

use anyhow::{Context, Result, anyhow, ensure};
use npf_key::keys_of;
use npf_packet::{Decoded, decode};
use npf_rewrite::{decoded_has_room, normalize, translate};
use npf_types::limits::MAX_PACKET_BYTES;
use npf_types::{Action, Addr, Change, End, Facts, IfId, Link};
use std::alloc::Global;

#[derive(Clone, Copy)]
struct Rewriting {
    action: Action,
    change: Change,
}

const NOTHING: Rewriting = Rewriting {
    action: Action {
        min_ttl: None,
        max_mss: None,
        no_df: false,
        log: None,
    },
    change: Change {
        src: None,
        dst: None,
        neutral: false,
    },
};

/// The packet after it is normalised and translated as the words say. The key of the answers that the change tells must be
/// that of the packet then.
pub fn rewritten_text(
    alloc: Global,
    words: &[&str],
    link: Link,
    packet: Vec<u8>,
) -> Result<String> {
    let Rewriting { action, change } = parse_rewriting(words)?;
    let mut bytes = packet;
    let facts = facts_of(link, &bytes)?;
    normalize(&mut bytes, &facts, &action);
    translate(&mut bytes, &facts, &change);
    let (_, answers) = keys_of(&facts, IfId(1), &change);
    let (_, answers_then) = keys_of(&facts_of(link, &bytes)?, IfId(1), &NOTHING.change);
    ensure!(
        answers == answers_then,
        "another key than that of the packet then"
    );
    Ok(hex::encode(alloc, &bytes)?)
}

fn parse_rewriting(words: &[&str]) -> Result<Rewriting> {
    let mut rewriting = NOTHING;
    for word in words {
        rewriting = with_word(rewriting, word)?;
    }
    Ok(rewriting)
}

fn with_word(rewriting: Rewriting, word: &str) -> Result<Rewriting> {
    let Rewriting {
        mut action,
        mut change,
    } = rewriting;
    match word.split_once('=') {
        Some(("min-ttl", number)) => action.min_ttl = Some(number.parse()?),
        Some(("max-mss", number)) => action.max_mss = Some(number.parse()?),
        Some(("source", end)) => change.src = Some(parse_end(end)?),
        Some(("destination", end)) => change.dst = Some(parse_end(end)?),
        None if word == "no-df" => action.no_df = true,
        None if word == "neutral" => change.neutral = true,
        _ => return Err(anyhow!("no such change")),
    }
    Ok(Rewriting { action, change })
}

/// An end, `ADDRESS` or `ADDRESS,PORT`.
fn parse_end(text: &str) -> Result<End> {
    let (addr, port) = match text.split_once(',') {
        Some((addr, port)) => (addr, Some(port.parse()?)),
        None => (text, None),
    };
    let addr = Addr::parse_ascii(addr.as_bytes()).context("no address")?;
    Ok(End { addr, port })
}

/// The facts of a packet.
fn facts_of(link: Link, bytes: &[u8]) -> Result<Facts>
    ensures { IfOk result (HasRoom (length bytes.now)) }
{
    decoded_has_room();
    ensure!(bytes.len() <= MAX_PACKET_BYTES, "too long for a packet");
    match decode(link, bytes) {
        Decoded::Ip(facts) => Ok(facts),
        _ => Err(anyhow!("a packet of IP")),
    }
}
