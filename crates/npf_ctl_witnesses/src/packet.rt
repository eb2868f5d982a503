// A witness's bytes, from its IP header on.
ghost use Rattle.std.specs.Prelude.{◌≡◌, ◌≤◌, ◌+◌, ◌∷◌, ◌++◌, IfOk, OnOk, length};
ghost use Rattle.byteorder.specs.Endian.{big_bytes};
ghost use Rattle.npf_possible.specs.Witness.{checksum_of, ip_header, ipv4_bytes, ipv6_bytes, upper_bytes, witness_bytes};

use crate::carried::{carried_checksum, upper_len, write_addresses, write_u16, write_upper};
use crate::checksum::checksum_of;
use npf_types::{Addr, Facts, L4, NoMemory};
use std::alloc::Global;

/// The bytes of a packet with these facts.
pub(crate) fn witness_bytes(alloc: Global, facts: &Facts) -> Result<Vec<u8>, NoMemory>
    ensures bytes { IfOk result (λ bytes. bytes.items ≡ witness_bytes facts.now) }
    ensures size { IfOk result (λ bytes. length bytes.items ≤ 76) }
{
    let sum = carried_checksum(alloc, facts)?;
    let mut bytes = Vec::new(alloc);
    write_header(alloc, &mut bytes, facts)?;
    write_upper(&mut bytes, &facts.l4, sum)?;
    Ok(bytes)
}

fn write_header(alloc: Global, out: &mut Vec<u8>, facts: &Facts) -> Result<(), NoMemory>
    ensures { OnOk result (out.new.items ≡ out.old.items ++ ip_header facts.now.src facts.now) }
{
    match facts.src {
        Addr::V4(_) => {
            let sum = ipv4_sum(alloc, facts)?;
            write_ipv4(out, facts, sum)
        }
        Addr::V6(_) => write_ipv6(out, facts),
    }
}

fn ipv4_sum(alloc: Global, facts: &Facts) -> Result<u16, NoMemory>
    ensures { IfOk result (λ sum. sum ≡ checksum_of (ipv4_bytes facts.now 0)) }
{
    let mut header = Vec::new(alloc);
    write_ipv4(&mut header, facts, 0)?;
    Ok(checksum_of(header.as_slice()))
}

// Version 4 and five words, the packet's length, no fragment, time to live 64 (RFC 791 section 3.1).
fn write_ipv4(out: &mut Vec<u8>, facts: &Facts, sum: u16) -> Result<(), NoMemory>
    ensures { OnOk result (out.new.items ≡ out.old.items ++ ipv4_bytes facts.now sum) }
{
    write_ipv4_len(out, &facts.l4)?;
    out.extend_from_slice(&[0, 0, 0, 0, 64, facts.proto])?;
    write_u16(out, sum)?;
    write_addresses(out, facts)
}

fn write_ipv4_len(out: &mut Vec<u8>, l4: &L4) -> Result<(), NoMemory>
    ensures { OnOk result (out.new.items ≡ out.old.items ++ (0x45 ∷ 0 ∷ big_bytes 2 (20 + length (upper_bytes l4.now 0)))) }
{
    out.extend_from_slice(&[0x45, 0])?;
    write_u16(out, ipv4_len(l4))
}

fn ipv4_len(l4: &L4) -> u16
    ensures { result ≡ 20 + length (upper_bytes l4.now 0) }
{
    20 + upper_len(l4)
}

// Version 6, the length of what follows, the protocol, hop limit 64 (RFC 8200 section 3).
fn write_ipv6(out: &mut Vec<u8>, facts: &Facts) -> Result<(), NoMemory>
    ensures { OnOk result (out.new.items ≡ out.old.items ++ ipv6_bytes facts.now) }
{
    out.extend_from_slice(&[0x60, 0, 0, 0])?;
    write_u16(out, upper_len(&facts.l4))?;
    out.extend_from_slice(&[facts.proto, 64])?;
    write_addresses(out, facts)
}
