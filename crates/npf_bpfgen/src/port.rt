// Tests of the ports, which TCP and UDP have at the same places (RFC 9293 section 3.1, RFC 768). Layer 4 is where the coprocessor says, so
// IPv4's options and IPv6's extension headers are no special case; a port is loaded once for its list.
ghost use Rattle.std.specs.Prelude.{◌≡◌, ◌≤◌, ◌+◌, ◌*◌, OnOk, Option, Some, length};
ghost use Rattle.std.specs.List.{list_any};
ghost use Rattle.npf_model.specs.Describes.{fits_ports, in_range};
ghost use Rattle.npf_bpfgen.specs.Endpoint.{port_of};
ghost use Rattle.npf_bpfgen.specs.Premise.{GuardsPacket};
ghost use Rattle.npf_bpfgen.specs.ProgramLength.{ports_length};
ghost use Rattle.npf_bpfgen.specs.Tail.{Extends, GuardsNumber};

use crate::endpoint::Endpoint;
use crate::header::{PROTOCOL, UPPER};
use crate::instruction::{if_at_least, if_equal, if_greater};
use crate::tail::Tail;
use npf_bpf::Operation::{Jump, LoadIndexMemory, LoadIndirect, LoadMemory, ReturnConstant};
use npf_bpf::Width::Half;
use npf_types::NoMemory;

/// Tests that the packet is of TCP or UDP and that the endpoint's port lies in one of the ranges.
pub fn put_ports(tail: &mut Tail, endpoint: Endpoint, ranges: &[(u16, u16)]) -> Result<(), NoMemory>
    requires { length tail.old + ports_length (Some ranges.now) ≤ 4096 }
    ensures front { OnOk result (Extends (ports_length (Some ranges.now)) 1 tail.old tail.new) }
    ensures value { OnOk result (GuardsPacket (λ tables facts. fits_ports (Some ranges.now) (port_of endpoint facts.l4)) tail.old tail.new) }
{
    put_ranges(tail, ranges)?;
    tail.put(&[
        LoadMemory(PROTOCOL),
        if_equal(6, 2, 0),
        if_equal(17, 1, 0),
        ReturnConstant(0),
        LoadIndexMemory(UPPER),
        LoadIndirect(Half, endpoint.port_place()),
    ])?;
    Ok(())
}

fn put_ranges(tail: &mut Tail, ranges: &[(u16, u16)]) -> Result<(), NoMemory>
    requires { length tail.old + 1 + 3 * length ranges.now ≤ 4096 }
    ensures front { OnOk result (Extends (1 + 3 * length ranges.now) 1 tail.old tail.new) }
    ensures value { OnOk result (GuardsNumber (λ port. list_any (in_range port) ranges.now) tail.old tail.new) }
{
    let behind = tail.len();
    tail.put(&[ReturnConstant(0)])?;
    let mut left = ranges.len();
    while left > 0 {
        left -= 1;
        let over = (tail.len() - behind) as u32;
        let (first, last) = ranges[left];
        tail.put(&[
            if_at_least(u32::from(first), 0, 2),
            if_greater(u32::from(last), 1, 0),
            Jump(over),
        ])?;
    }
    Ok(())
}
