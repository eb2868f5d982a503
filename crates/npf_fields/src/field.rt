// Numbers in bytes. A put says three things, its field, the bytes in front and those behind, which with the slice's length say every byte.
ghost use Rattle.std.specs.Prelude.{◌≡◌, ◌+◌, ◌≤◌, length};
ghost use Rattle.npf_fields.specs.Field.{number16, number32, number128};
ghost use Rattle.std.specs.List.{SameBelow, SameFrom};

use byteorder::{BigEndian, ByteOrder};

/// The 16-bit number at a place.
pub fn get16(bytes: &[u8], at: usize) -> u16
    requires { at + 2 ≤ length bytes.now }
    ensures { result ≡ number16 bytes.now at }
{
    BigEndian::read_u16(&bytes[at..])
}

/// The 32-bit number at a place.
pub fn get32(bytes: &[u8], at: usize) -> u32
    requires { at + 4 ≤ length bytes.now }
    ensures { result ≡ number32 bytes.now at }
{
    BigEndian::read_u32(&bytes[at..])
}

/// The 128-bit number at a place, as an IPv6 address.
pub fn get128(bytes: &[u8], at: usize) -> u128
    requires { at + 16 ≤ length bytes.now }
    ensures { result ≡ number128 bytes.now at }
{
    BigEndian::read_u128(&bytes[at..])
}

/// Writes a 16-bit number at a place.
pub fn put16(bytes: &mut [u8], at: usize, v: u16)
    requires { at + 2 ≤ length bytes.old }
    ensures written { number16 bytes.new at ≡ v }
    ensures before { SameBelow bytes.old bytes.new at }
    ensures after { SameFrom bytes.old bytes.new (at + 2) }
{
    BigEndian::write_u16(&mut bytes[at..], v);
}

/// Writes a 32-bit number at a place.
pub fn put32(bytes: &mut [u8], at: usize, v: u32)
    requires { at + 4 ≤ length bytes.old }
    ensures written { number32 bytes.new at ≡ v }
    ensures before { SameBelow bytes.old bytes.new at }
    ensures after { SameFrom bytes.old bytes.new (at + 4) }
{
    BigEndian::write_u32(&mut bytes[at..], v);
}

/// Writes a 128-bit number at a place.
pub fn put128(bytes: &mut [u8], at: usize, v: u128)
    requires { at + 16 ≤ length bytes.old }
    ensures written { number128 bytes.new at ≡ v }
    ensures before { SameBelow bytes.old bytes.new at }
    ensures after { SameFrom bytes.old bytes.new (at + 16) }
{
    BigEndian::write_u128(&mut bytes[at..], v);
}
