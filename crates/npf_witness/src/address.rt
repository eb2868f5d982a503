// Addresses as the canonical text spells them.
ghost use Rattle.std.specs.Prelude.{◌≡◌, ◌++◌, OnOk};
ghost use Rattle.std.specs.Net.Text.{groups_text, hex, ipv4_text};
ghost use Rattle.npf_show.specs.Address.{address_text};

use npf_show::hex_digit;
use npf_text::{write_bytes, write_counted, write_number, write_text};
use npf_types::{Addr, NoMemory};
use std::net::Ipv6Addr;

/// Appends the address: four decimal numbers, or eight groups of hexadecimal digits.
pub(crate) fn write_address(into: &mut Vec<u8>, addr: Addr) -> Result<(), NoMemory>
    ensures { OnOk result (into.new.items ≡ into.old.items ++ address_text addr) }
{
    match addr {
        Addr::V4(bits) => write_dotted(into, bits),
        Addr::V6(bits) => write_segments(into, bits),
    }
}

fn write_dotted(into: &mut Vec<u8>, bits: u32) -> Result<(), NoMemory>
    ensures { OnOk result (into.new.items ≡ into.old.items ++ address_text (Addr.V4 bits)) }
{
    let [a, b, c, d] = bits.to_be_bytes();
    write_number(into, u64::from(a))?;
    write_counted(into, ".", u64::from(b))?;
    write_counted(into, ".", u64::from(c))?;
    write_counted(into, ".", u64::from(d))
}

#[tactic(auto, unfolding(std::specs::Net::Addr::IsIpv6OfBits))]
fn write_segments(into: &mut Vec<u8>, bits: u128) -> Result<(), NoMemory>
    ensures { OnOk result (into.new.items ≡ into.old.items ++ address_text (Addr.V6 bits)) }
{
    let segments = Ipv6Addr::from_bits(bits).segments();
    write_groups(into, &segments)
}

// Appends groups with colons between them.
fn write_groups(into: &mut Vec<u8>, numbers: &[u16]) -> Result<(), NoMemory>
    ensures { OnOk result (into.new.items ≡ into.old.items ++ groups_text numbers.now) }
{
    let Some((first, others)) = numbers.split_first() else {
        return Ok(());
    };
    write_group(into, *first)?;
    for number in others {
        write_text(into, ":")?;
        write_group(into, *number)?;
    }
    Ok(())
}

// Appends a group in hexadecimal digits, without leading zeros.
#[tactic(auto, unfolding(std::specs::Net::Text::hex))]
fn write_group(into: &mut Vec<u8>, number: u16) -> Result<(), NoMemory>
    ensures { OnOk result (into.new.items ≡ into.old.items ++ hex number) }
{
    let digits = [
        hex_digit(number / 0x1000),
        hex_digit(number / 0x100 % 16),
        hex_digit(number / 0x10 % 16),
        hex_digit(number % 16),
    ];
    match number {
        0x1000.. => write_bytes(into, &digits),
        0x100.. => write_bytes(into, &digits[1..]),
        0x10.. => write_bytes(into, &digits[2..]),
        _ => write_bytes(into, &digits[3..]),
    }
}
