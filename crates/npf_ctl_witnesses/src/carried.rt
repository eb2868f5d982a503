// What a witness carries above IP: a header without options, and no payload.
ghost use Rattle.std.specs.Prelude.{◌≡◌, ◌++◌, ◌∷◌, [], ◌==◌, if◌then◌else◌, IfOk, OnOk, length};
ghost use Rattle.byteorder.specs.Endian.{big_bytes};
ghost use Rattle.npf_possible.specs.Witness.{address_bytes, carried_checksum, checksum_of, pseudo_bytes, upper_bytes};

use crate::checksum::checksum_of;
use npf_types::{Addr, Facts, L4, NoMemory};
use std::alloc::Global;

/// Appends it with this sum.
pub(crate) fn write_upper(out: &mut Vec<u8>, l4: &L4, sum: u16) -> Result<(), NoMemory>
    ensures { OnOk result (out.new.items ≡ out.old.items ++ upper_bytes l4.now sum) }
{
    match *l4 {
        L4::Tcp {
            sport,
            dport,
            seg,
            ..
        } => write_segment(out, sport, dport, seg.flags, sum),
        L4::Udp { sport, dport } => write_datagram(out, sport, dport, sum),
        L4::Icmp { kind, code, .. } | L4::Icmp6 { kind, code, .. } => {
            write_message(out, kind, code, sum)
        }
        L4::Other => Ok(()),
    }
}

// A data offset of five words, and sequence numbers, window and urgent pointer 0 (RFC 9293 section 3.1).
fn write_segment(
    out: &mut Vec<u8>,
    sport: u16,
    dport: u16,
    flags: u8,
    sum: u16,
) -> Result<(), NoMemory>
    ensures { OnOk result (out.new.items ≡ out.old.items ++ (big_bytes 2 sport ++ big_bytes 2 dport ++ big_bytes 4 0 ++ big_bytes 4 0
        ++ 0x50 ∷ flags ∷ [] ++ big_bytes 2 0 ++ big_bytes 2 sum ++ big_bytes 2 0)) }
{
    write_u16(out, sport)?;
    write_u16(out, dport)?;
    out.extend_from_slice(&[0, 0, 0, 0, 0, 0, 0, 0, 0x50, flags, 0, 0])?;
    write_u16(out, sum)?;
    write_u16(out, 0)
}

// RFC 768.
fn write_datagram(out: &mut Vec<u8>, sport: u16, dport: u16, sum: u16) -> Result<(), NoMemory>
    ensures { OnOk result (out.new.items ≡ out.old.items ++ (big_bytes 2 sport ++ big_bytes 2 dport ++ big_bytes 2 8 ++ big_bytes 2 sum)) }
{
    write_u16(out, sport)?;
    write_u16(out, dport)?;
    write_u16(out, 8)?;
    write_u16(out, sum)
}

// RFC 792, RFC 4443 section 2.1.
fn write_message(out: &mut Vec<u8>, kind: u8, code: u8, sum: u16) -> Result<(), NoMemory>
    ensures { OnOk result (out.new.items ≡ out.old.items ++ (kind ∷ code ∷ [] ++ big_bytes 2 sum ++ big_bytes 4 0)) }
{
    out.extend_from_slice(&[kind, code])?;
    write_u16(out, sum)?;
    out.extend_from_slice(&[0, 0, 0, 0])?;
    Ok(())
}

/// Its bytes.
pub(crate) fn upper_len(l4: &L4) -> u16
    ensures { result ≡ length (upper_bytes l4.now 0) }
{
    match l4 {
        L4::Tcp { .. } => 20,
        L4::Udp { .. } | L4::Icmp { .. } | L4::Icmp6 { .. } => 8,
        L4::Other => 0,
    }
}

/// The sum that it carries. ICMP counts no pseudo-header, and a sum of UDP that comes to 0 is written 0xFFFF.
pub(crate) fn carried_checksum(alloc: Global, facts: &Facts) -> Result<u16, NoMemory>
    ensures { IfOk result (λ sum. sum ≡ carried_checksum facts.now facts.now.l4) }
{
    match facts.l4 {
        L4::Icmp { .. } => upper_sum(alloc, &facts.l4),
        L4::Udp { .. } => Ok(nonzero(pseudo_sum(alloc, facts)?)),
        L4::Tcp { .. } | L4::Icmp6 { .. } | L4::Other => pseudo_sum(alloc, facts),
    }
}

fn nonzero(sum: u16) -> u16
    ensures { result ≡ (if sum == 0 then 0xffff else sum) }
{
    if sum == 0 { 0xffff } else { sum }
}

fn upper_sum(alloc: Global, l4: &L4) -> Result<u16, NoMemory>
    ensures { IfOk result (λ sum. sum ≡ checksum_of (upper_bytes l4.now 0)) }
{
    let mut bytes = Vec::new(alloc);
    write_upper(&mut bytes, l4, 0)?;
    Ok(checksum_of(bytes.as_slice()))
}

fn pseudo_sum(alloc: Global, facts: &Facts) -> Result<u16, NoMemory>
    ensures { IfOk result (λ sum. sum ≡ checksum_of (pseudo_bytes facts.now ++ upper_bytes facts.now.l4 0)) }
{
    let mut bytes = Vec::new(alloc);
    write_pseudo(&mut bytes, facts)?;
    write_upper(&mut bytes, &facts.l4, 0)?;
    Ok(checksum_of(bytes.as_slice()))
}

// Appends the pseudo-header: both addresses, the protocol, and the length of what is carried.
fn write_pseudo(out: &mut Vec<u8>, facts: &Facts) -> Result<(), NoMemory>
    ensures { OnOk result (out.new.items ≡ out.old.items ++ pseudo_bytes facts.now) }
{
    write_addresses(out, facts)?;
    write_u16(out, u16::from(facts.proto))?;
    write_u16(out, upper_len(&facts.l4))
}

/// Appends both addresses.
pub(crate) fn write_addresses(out: &mut Vec<u8>, facts: &Facts) -> Result<(), NoMemory>
    ensures { OnOk result (out.new.items ≡ out.old.items ++ (address_bytes facts.now.src ++ address_bytes facts.now.dst)) }
{
    write_address(out, facts.src)?;
    write_address(out, facts.dst)
}

fn write_address(out: &mut Vec<u8>, addr: Addr) -> Result<(), NoMemory>
    ensures { OnOk result (out.new.items ≡ out.old.items ++ address_bytes addr) }
{
    match addr {
        Addr::V4(bits) => out.extend_from_slice(&bits.to_be_bytes())?,
        Addr::V6(bits) => out.extend_from_slice(&bits.to_be_bytes())?,
    }
    Ok(())
}

/// Appends a number of 16 bits, the higher byte first.
pub(crate) fn write_u16(out: &mut Vec<u8>, number: u16) -> Result<(), NoMemory>
    ensures { OnOk result (out.new.items ≡ out.old.items ++ big_bytes 2 number) }
{
    out.extend_from_slice(&number.to_be_bytes())?;
    Ok(())
}
