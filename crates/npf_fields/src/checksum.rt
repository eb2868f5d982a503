// The step of a checksum. For a word that stays a sum of 0xFFFF would become 0, as in equation 3 of RFC 1624: callers adjust by words that
// change alone.
ghost use Rattle.std.specs.Prelude.{◌≡◌, ℕ, ◌*◌, ◌≤◌, ◌↔◌};
ghost use Rattle.npf_fields.specs.Checksum.{adjusted_sum, end_around as carried, with_carries as once_carried, Verifies};

/// The Internet checksum `sum` after its word `old` became `new` (RFC 1624, equation 3).
pub fn sum_adjust(sum: u16, old: u16, new: u16) -> u16
    ensures equation { result ≡ adjusted_sum sum old new }
    ensures verifies { (others : ℕ) → Verifies others new result ↔ Verifies others old sum }
{
    !end_around(u32::from(!sum) + u32::from(!old) + u32::from(new))
}

// The end-around carry of three numbers of 16 bits.
fn end_around(total: u32) -> u16
    requires { total ≤ 3 * 65535 }
    ensures { result ≡ carried total }
{
    let once = with_carries(total);
    with_carries(once) as u16
}

// The carries above 16 bits added to the 16 bits below them.
fn with_carries(total: u32) -> u32
    ensures { result ≡ once_carried total }
{
    (total & 0xffff) + (total >> 16)
}
