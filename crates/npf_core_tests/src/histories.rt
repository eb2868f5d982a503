// Rows of histories: acts that the machine of connections is asked for, by the law `Sum`.

use crate::replies::Told;
use crate::sum::Sum;
use crate::words::{parse_id, parse_way};
use anyhow::{Context, Result, anyhow};
use npf_core::{Act, Asked, Entry, Why, replay};
use npf_types::Key;
use std::alloc::Global;

/// The replies to the acts of `SLOTS: SEAT ACT, ..`, or the place of the act that isn't allowed.
pub fn answer(alloc: Global, text: &str) -> Result<String> {
    let (slots, acts) = text.split_once(':').context("a history is SLOTS: ACT, ..")?;
    let asked = parse_asked(alloc, acts)?;
    match replay::<Sum>(alloc, slots.parse()?, &asked) {
        Ok(history) => replies_text(alloc, &history),
        Err(fault) => Ok(format!(in alloc; "{fault}")?),
    }
}

fn replies_text(alloc: Global, history: &[Entry<u32, u32, u32>]) -> Result<String> {
    let mut replies: Vec<String> = Vec::new(alloc);
    for entry in history {
        replies.push(format!(in alloc; "{}", Told(&entry.reply))?)?;
    }
    Ok(replies.join(alloc, ", ")?)
}

fn parse_asked(alloc: Global, acts: &str) -> Result<Vec<Asked<u32, u32>>> {
    let mut asked = Vec::new(alloc);
    for act in acts.split(',') {
        let words: Vec<&str> = act.split_whitespace().collect(alloc)?;
        let [seat, ref act @ ..] = *words.as_slice() else {
            return Err(anyhow!("no act"));
        };
        asked.push(Asked {
            seat: seat.parse()?,
            act: parse_act(act)?,
        })?;
    }
    Ok(asked)
}

/// An act. All are asked for packet 1, on which no answer depends.
fn parse_act(words: &[&str]) -> Result<Act<u32, u32>> {
    match *words {
        ["claim", slot] => Ok(Act::Claim {
            packet: 1,
            slot: slot.parse()?,
        }),
        ["look", key] => Ok(Act::Look {
            packet: 1,
            key: parse_key(key)?,
        }),
        ["hold", id, key, way] => Ok(Act::Hold {
            id: parse_id(id)?,
            key: parse_key(key)?,
            way: parse_way(way)?,
        }),
        ["start", id, init] => Ok(Act::Start {
            id: parse_id(id)?,
            packet: 1,
            init: init.parse()?,
        }),
        ["step", id, way, arg] => Ok(Act::Step {
            packet: 1,
            id: parse_id(id)?,
            way: parse_way(way)?,
            arg: arg.parse()?,
        }),
        ["unhold", id, way] => Ok(Act::Unhold {
            id: parse_id(id)?,
            way: parse_way(way)?,
        }),
        ["free", id] => Ok(Act::Free { id: parse_id(id)? }),
        _ => parse_kill(words),
    }
}

fn parse_kill(words: &[&str]) -> Result<Act<u32, u32>> {
    match *words {
        ["abandon", id] => Ok(Act::Kill {
            id: parse_id(id)?,
            why: Why::Abandoned,
        }),
        ["expire", id, time] => Ok(Act::Kill {
            id: parse_id(id)?,
            why: Why::Expired(time.parse()?),
        }),
        _ => Err(anyhow!("no such act")),
    }
}

/// A key of UDP whose last number is this one.
fn parse_key(word: &str) -> Result<Key> {
    Ok(Key([17, 1, 2, 3, word.parse()?]))
}
