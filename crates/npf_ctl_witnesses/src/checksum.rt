// The Internet checksum (RFC 1071).
ghost use Rattle.std.specs.Prelude.{◌≡◌, ◌≤◌, ◌*◌, ◌^◌, ◌%◌, ◌==◌, if◌then◌else◌, length};
ghost use Rattle.npf_fields.specs.Checksum.{end_around};
ghost use Rattle.npf_possible.specs.Witness.{checksum_of};

/// The sum that a header carries for these bytes, of which there may be 65,536.
pub(crate) fn checksum_of(bytes: &[u8]) -> u16
    requires { length bytes.now ≤ 65536 }
    ensures { result ≡ checksum_of bytes.now }
{
    let mut total: u32 = 0;
    for (place, byte) in bytes.iter().enumerate() {
        total += in_word(place, *byte);
    }
    !end_around(total)
}

// What the byte at a place counts in its word of 16 bits, the higher byte of which comes first.
fn in_word(place: usize, byte: u8) -> u32
    ensures { result ≡ (if place % 2 == 0 then 2 ^ 8 * byte else byte) }
{
    if place % 2 == 0 {
        u32::from(byte) << 8
    } else {
        u32::from(byte)
    }
}

// The carries above 16 bits, added until 16 bits are left.
fn end_around(total: u32) -> u16
    ensures { result ≡ end_around total }
{
    let once = total % 65_536 + total / 65_536;
    (once % 65_536 + once / 65_536) as u16
}
