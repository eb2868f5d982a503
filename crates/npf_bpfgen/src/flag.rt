// Tests of a segment's control bits (RFC 9293 section 3.1).
ghost use Rattle.std.specs.Prelude.{◌≡◌, Bool, true, false, OnOk, Option, if◌then◌else◌};
ghost use Rattle.npf_model.specs.Describes.{fits_flags, opens_if_tcp, shows_flags};
ghost use Rattle.npf_bpfgen.specs.Condition as condition;
ghost use Rattle.npf_bpfgen.specs.Premise.{GuardsPacket};
ghost use Rattle.npf_bpfgen.specs.ProgramLength.{flags_length};
ghost use Rattle.npf_bpfgen.specs.Tail.{Extends};

use crate::header::{PROTOCOL, UPPER};
use crate::instruction::{if_equal, mask_with};
use crate::tail::Tail;
use npf_bpf::Operation::{LoadIndexMemory, LoadIndirect, LoadMemory, ReturnConstant};
use npf_bpf::Width::Byte;
use npf_model::StateOpt;
use npf_types::{Decision, NoMemory};

/// Tests the control bits that a rule asks for; of a rule that keeps what it passes and asks for
/// none, that a segment opens a connection.
pub fn put_flags(
    tail: &mut Tail,
    flags: Option<(u8, u8)>,
    decision: Decision,
    state: StateOpt,
) -> Result<(), NoMemory>
    ensures front { OnOk result (Extends (flags_length flags decision state) 1 tail.old tail.new) }
    ensures value { OnOk result (GuardsPacket (λ tables facts. fits_flags flags decision state facts.l4) tail.old tail.new) }
{
    match flags {
        Some((wanted, mask)) => put_segment(tail, wanted, mask),
        None => put_kept(tail, decision, state),
    }
}

fn put_kept(tail: &mut Tail, decision: Decision, state: StateOpt) -> Result<(), NoMemory>
    ensures front { OnOk result (Extends (flags_length None decision state) 1 tail.old tail.new) }
    ensures value { OnOk result (GuardsPacket (λ tables facts. fits_flags None decision state facts.l4) tail.old tail.new) }
{
    if asks_opening(decision, state) {
        put_opening(tail)?;
    }
    Ok(())
}

fn asks_opening(decision: Decision, state: StateOpt) -> bool
    ensures { result ≡ condition.asks_opening decision state }
{
    match (decision, state) {
        (Decision::Pass, StateOpt::OnInterface | StateOpt::Everywhere) => true,
        (Decision::Pass, StateOpt::Not) => false,
        (Decision::Block(_), _) => false,
    }
}

// A segment whose bits, looked at through the mask, are those that are wanted.
fn put_segment(tail: &mut Tail, wanted: u8, mask: u8) -> Result<(), NoMemory>
    ensures front { OnOk result (Extends 7 1 tail.old tail.new) }
    ensures value { OnOk result (GuardsPacket (λ tables facts. shows_flags facts.l4 wanted mask) tail.old tail.new) }
{
    tail.put(&[
        LoadMemory(PROTOCOL),
        if_equal(6, 0, 4),
        LoadIndexMemory(UPPER),
        LoadIndirect(Byte, 13),
        mask_with(u32::from(mask)),
        if_equal(u32::from(wanted), 1, 0),
        ReturnConstant(0),
    ])?;
    Ok(())
}

// Anything but TCP, or a segment with S and without A, R and F: 2 of 23.
fn put_opening(tail: &mut Tail) -> Result<(), NoMemory>
    ensures front { OnOk result (Extends 7 1 tail.old tail.new) }
    ensures value { OnOk result (GuardsPacket (λ tables facts. opens_if_tcp facts.l4) tail.old tail.new) }
{
    tail.put(&[
        LoadMemory(PROTOCOL),
        if_equal(6, 0, 5),
        LoadIndexMemory(UPPER),
        LoadIndirect(Byte, 13),
        mask_with(23),
        if_equal(2, 1, 0),
        ReturnConstant(0),
    ])?;
    Ok(())
}
