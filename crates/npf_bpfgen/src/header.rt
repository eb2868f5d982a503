// Tests of the header words that the coprocessor tells: the family and the protocol.
ghost use Rattle.std.specs.Prelude.{◌≡◌, ◌≤◌, ◌+◌, ◌*◌, ◌==◌, OnOk, List, false, length, not, if◌then◌else◌};
ghost use Rattle.std.specs.List.{list_any};
ghost use Rattle.npf_model.specs.Describes.{fits_family, fits_protocol};
ghost use Rattle.npf_bpfgen.specs.Premise.{GuardsPacket};
ghost use Rattle.npf_bpfgen.specs.Condition.{allows_family};
ghost use Rattle.npf_bpfgen.specs.ProgramLength.{families_length, family_length, protocols_length};
ghost use Rattle.npf_bpfgen.specs.Tail.{BranchesOnNumber, Extends, GuardsNumber};

use crate::instruction::if_equal;
use crate::tail::Tail;
use npf_bpf::Operation::{Jump, LoadMemory, ReturnConstant};
use npf_types::NoMemory;

/// The word of the store that has the IP version, the one that has the offset of layer 4, and the one
/// that has the protocol.
pub const VERSION: u32 = 0;

pub const UPPER: u32 = 1;

pub const PROTOCOL: u32 = 2;

/// Tests that the packet is of the family, where one is asked for.
pub fn put_family(tail: &mut Tail, v6: Option<bool>) -> Result<(), NoMemory>
    ensures front { OnOk result (Extends (family_length v6) 1 tail.old tail.new) }
    ensures value { OnOk result (GuardsPacket (λ tables facts. fits_family v6 facts.src) tail.old tail.new) }
{
    match v6 {
        Some(v6) => put_version(tail, v6),
        None => Ok(()),
    }
}

/// Tests that the packet is of a family of which it is told that it may be.
pub fn put_families(tail: &mut Tail, v4: bool, v6: bool) -> Result<(), NoMemory>
    ensures front { OnOk result (Extends (families_length v4 v6) 1 tail.old tail.new) }
    ensures value { OnOk result (GuardsPacket (λ tables facts. allows_family v4 v6 facts.src) tail.old tail.new) }
{
    match (v4, v6) {
        (true, true) => Ok(()),
        (true, false) => put_version(tail, false),
        (false, true) => put_version(tail, true),
        (false, false) => put_refusal(tail),
    }
}

fn put_refusal(tail: &mut Tail) -> Result<(), NoMemory>
    ensures front { OnOk result (Extends 1 1 tail.old tail.new) }
    ensures value { OnOk result (GuardsPacket (λ tables facts. allows_family false false facts.src) tail.old tail.new) }
{
    tail.put(&[ReturnConstant(0)])?;
    Ok(())
}

fn put_version(tail: &mut Tail, v6: bool) -> Result<(), NoMemory>
    ensures front { OnOk result (Extends 3 1 tail.old tail.new) }
    ensures value { OnOk result (GuardsPacket (λ tables facts. fits_family (Some v6) facts.src) tail.old tail.new) }
    ensures one { OnOk result (GuardsPacket (λ tables facts. allows_family (not v6) v6 facts.src) tail.old tail.new) }
{
    tail.put(&[
        LoadMemory(VERSION),
        if_equal(version_of(v6), 1, 0),
        ReturnConstant(0),
    ])?;
    Ok(())
}

fn version_of(v6: bool) -> u32
    ensures { result ≡ (if v6 then 6 else 4) }
{
    if v6 { 6 } else { 4 }
}

/// Tests that the packet's protocol is one of the list, where the list isn't empty.
pub fn put_protocols(tail: &mut Tail, protos: &[u8]) -> Result<(), NoMemory>
    requires { length tail.old + protocols_length protos.now ≤ 4096 }
    ensures front { OnOk result (Extends (protocols_length protos.now) 1 tail.old tail.new) }
    ensures value { OnOk result (GuardsPacket (λ tables facts. fits_protocol protos.now facts.proto) tail.old tail.new) }
{
    if protos.is_empty() {
        return Ok(());
    }
    put_numbers(tail, protos)?;
    tail.put(&[LoadMemory(PROTOCOL)])?;
    Ok(())
}

fn put_numbers(tail: &mut Tail, protos: &[u8]) -> Result<(), NoMemory>
    requires { length tail.old + 1 + 2 * length protos.now ≤ 4096 }
    ensures front { OnOk result (Extends (1 + 2 * length protos.now) 1 tail.old tail.new) }
    ensures value { OnOk result (GuardsNumber (λ proto. list_any (λ listed. listed == proto) protos.now) tail.old tail.new) }
{
    let behind = tail.len();
    tail.put(&[ReturnConstant(0)])?;
    let mut left = protos.len();
    while left > 0 {
        left -= 1;
        let over = (tail.len() - behind) as u32;
        tail.put(&[if_equal(u32::from(protos[left]), 0, 1), Jump(over)])?;
    }
    Ok(())
}
