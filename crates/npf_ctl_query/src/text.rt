// The text of an answer.
ghost use Rattle.std.specs.Prelude.{◌≡◌, ◌<◌, ◌++◌, Some, OnOk, IfOk, length};
ghost use Rattle.npf_model.specs.Verdict.{all_rules};
ghost use Rattle.npf_ctl_query.specs.QueryText.{HasRules, IsDecider, answer_text, none_line, ordinal_text, packet_line, packet_tail, decider_line, decider_lines, says_line};

use crate::decision::rule_word;
use itoa::Buffer;
use npf_judge::{ClassSays, Deciders};
use npf_model::{Iface, Ifaces};
use npf_products::CellPacket;
use npf_ruleset::Config;
use npf_text::{write_counted, write_text};
use npf_types::NoMemory;
use npf_witness::write_witness;
use std::alloc::Global;

/// A line for each rule and for none, and what is said of the class as a whole.
pub(crate) fn answer_text(
    alloc: Global,
    config: &Config,
    ifaces: &Ifaces,
    answer: &Deciders,
    says: ClassSays,
) -> Result<Vec<u8>, NoMemory>
    requires { HasRules config.now answer.now }
    ensures { IfOk result (λ text. text.items ≡ answer_text ifaces.now.list config.now.model answer.now says) }
{
    let mut text = Vec::new(alloc);
    write_rules(alloc, &mut text, config, ifaces, answer)?;
    write_none(alloc, &mut text, ifaces.list.as_slice(), answer.none)?;
    write_text(&mut text, says_line(says))?;
    Ok(text)
}

/// Appends the line of a packet and of what decides on it: none, or the rule at a place, which must be in range.
pub fn write_decider(
    alloc: Global,
    into: &mut Vec<u8>,
    config: &Config,
    ifaces: &[Iface],
    rule: Option<usize>,
    packet: &CellPacket,
) -> Result<(), NoMemory>
    requires { IsDecider config.now.model rule }
    ensures { OnOk result (into.new.items ≡ into.old.items ++ packet_line ifaces.now config.now.model rule packet.now) }
{
    match rule {
        Some(place) => write_rule(alloc, into, config, ifaces, place, packet),
        None => write_none(alloc, into, ifaces, Some(*packet)),
    }
}

fn write_rules(
    alloc: Global,
    into: &mut Vec<u8>,
    config: &Config,
    ifaces: &Ifaces,
    answer: &Deciders,
) -> Result<(), NoMemory>
    requires { HasRules config.now answer.now }
    ensures { OnOk result (into.new.items ≡ into.old.items ++ decider_lines ifaces.now.list config.now.model 0 answer.now.rules.items) }
{
    for place in 0..answer.rules.len() {
        let found = answer.rule(place);
        write_found(alloc, into, config, ifaces.list.as_slice(), place, found)?;
    }
    Ok(())
}

// Appends the line of the rule at a place, which must be in range, if a packet was found for it.
fn write_found(
    alloc: Global,
    into: &mut Vec<u8>,
    config: &Config,
    ifaces: &[Iface],
    place: usize,
    found: Option<CellPacket>,
) -> Result<(), NoMemory>
    requires { place < length (all_rules config.now.model.groups) }
    ensures { OnOk result (into.new.items ≡ into.old.items ++ decider_line ifaces.now config.now.model place found) }
{
    match found {
        Some(packet) => write_rule(alloc, into, config, ifaces, place, &packet),
        None => Ok(()),
    }
}

// Appends the line of the rule at a place, which must be in range, and of a packet.
fn write_rule(
    alloc: Global,
    into: &mut Vec<u8>,
    config: &Config,
    ifaces: &[Iface],
    place: usize,
    packet: &CellPacket,
) -> Result<(), NoMemory>
    requires { place < length (all_rules config.now.model.groups) }
    ensures { OnOk result (into.new.items ≡ into.old.items ++ decider_line ifaces.now config.now.model place (Some packet.now)) }
{
    write_text(into, rule_word(config.rule(place as u32)))?;
    write_counted(into, " ", place as u64 + 1)?;
    write_text(into, " ")?;
    write_packet(alloc, into, ifaces, packet)
}

fn write_none(
    alloc: Global,
    into: &mut Vec<u8>,
    ifaces: &[Iface],
    found: Option<CellPacket>,
) -> Result<(), NoMemory>
    ensures { OnOk result (into.new.items ≡ into.old.items ++ none_line ifaces.now found) }
{
    let Some(packet) = found else {
        return Ok(());
    };
    write_text(into, "block none ")?;
    write_packet(alloc, into, ifaces, &packet)
}

/// Appends the packet in the words of a class, and the line's end.
pub fn write_packet(
    alloc: Global,
    into: &mut Vec<u8>,
    ifaces: &[Iface],
    packet: &CellPacket,
) -> Result<(), NoMemory>
    ensures { OnOk result (into.new.items ≡ into.old.items ++ packet_tail ifaces.now packet.now) }
{
    write_witness(alloc, into, ifaces, &packet.facts, packet.ifid, packet.dir)?;
    write_text(into, "\n")
}

/// Appends the number, from 1, of a place that counts from 0.
#[tactic(auto, unfolding(crate::specs::QueryText::ordinal_text))]
pub fn write_ordinal(into: &mut Vec<u8>, place: usize) -> Result<(), NoMemory>
    ensures { OnOk result (into.new.items ≡ into.old.items ++ ordinal_text place) }
{
    let mut digits = Buffer::new();
    into.extend_from_slice(digits.format(place as u128 + 1).as_bytes())?;
    Ok(())
}

fn says_line(says: ClassSays) -> &'static str
    ensures { result.now ≡ says_line says }
{
    match says {
        ClassSays::Pass => "pass\n",
        ClassSays::Block => "block\n",
        ClassSays::Both => "both\n",
        ClassSays::Empty => "empty\n",
    }
}
