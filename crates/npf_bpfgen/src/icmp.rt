// Tests of ICMP's type and code, in IPv4 (RFC 792) and in IPv6 (RFC 4443).
ghost use Rattle.std.specs.Prelude.{◌≡◌, OnOk, Option, Some};
ghost use Rattle.npf_model.specs.Describes.{fits_icmp};
ghost use Rattle.npf_bpfgen.specs.Instruction.{if_message};
ghost use Rattle.npf_bpfgen.specs.Premise.{GuardsPacket};
ghost use Rattle.npf_bpfgen.specs.ProgramLength.{icmp_length};
ghost use Rattle.npf_bpfgen.specs.Tail.{Extends};

use crate::header::{PROTOCOL, UPPER, VERSION};
use crate::instruction::if_equal;
use crate::tail::Tail;
use npf_bpf::Operation::{LoadIndexMemory, LoadIndirect, LoadMemory, ReturnConstant};
use npf_bpf::Width::Byte;
use npf_types::NoMemory;

/// Tests that the packet is of ICMP with the type, and with the code, that are asked for.
pub fn put_icmp(tail: &mut Tail, icmp: Option<(u8, Option<u8>)>) -> Result<(), NoMemory>
    ensures front { OnOk result (Extends (icmp_length icmp) 1 tail.old tail.new) }
    ensures value { OnOk result (GuardsPacket (λ tables facts. fits_icmp icmp facts.l4) tail.old tail.new) }
{
    match icmp {
        Some((kind, code)) => put_asked(tail, kind, code),
        None => Ok(()),
    }
}

fn put_asked(tail: &mut Tail, kind: u8, code: Option<u8>) -> Result<(), NoMemory>
    ensures front { OnOk result (Extends (icmp_length (Some (kind, code))) 1 tail.old tail.new) }
    ensures value { OnOk result (GuardsPacket (λ tables facts. fits_icmp (Some (kind, code)) facts.l4) tail.old tail.new) }
{
    match code {
        Some(code) => put_type_and_code(tail, kind, code),
        None => put_type(tail, kind),
    }
}

fn put_type(tail: &mut Tail, kind: u8) -> Result<(), NoMemory>
    ensures front { OnOk result (Extends 12 1 tail.old tail.new) }
    ensures value { OnOk result (GuardsPacket (λ tables facts. fits_icmp (Some (kind, None)) facts.l4) tail.old tail.new) }
{
    tail.put(&[
        LoadIndexMemory(UPPER),
        LoadIndirect(Byte, 0),
        if_equal(u32::from(kind), 1, 0),
        ReturnConstant(0),
    ])?;
    put_message_test(tail)?;
    Ok(())
}

fn put_type_and_code(tail: &mut Tail, kind: u8, code: u8) -> Result<(), NoMemory>
    ensures front { OnOk result (Extends 15 1 tail.old tail.new) }
    ensures value { OnOk result (GuardsPacket (λ tables facts. fits_icmp (Some (kind, Some code)) facts.l4) tail.old tail.new) }
{
    tail.put(&[
        LoadIndexMemory(UPPER),
        LoadIndirect(Byte, 0),
        if_equal(u32::from(kind), 0, 3),
        LoadIndexMemory(UPPER),
        LoadIndirect(Byte, 1),
        if_equal(u32::from(code), 1, 0),
        ReturnConstant(0),
    ])?;
    put_message_test(tail)?;
    Ok(())
}

// Goes on where the packet is of the ICMP that belongs to its version.
fn put_message_test(tail: &mut Tail) -> Result<(), NoMemory>
    ensures { OnOk result (tail.new ≡ if_message tail.old) }
{
    tail.put(&[
        LoadMemory(PROTOCOL),
        if_equal(58, 0, 2),
        LoadMemory(VERSION),
        if_equal(6, 4, 3),
        if_equal(1, 0, 2),
        LoadMemory(VERSION),
        if_equal(4, 1, 0),
        ReturnConstant(0),
    ])?;
    Ok(())
}
