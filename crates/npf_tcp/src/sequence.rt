// Sequence numbers, which go round (RFC 9293 section 3.4).
ghost use Rattle.std.specs.Prelude.{◌≡◌};
ghost use Rattle.npf_tcp.specs.Sequence.{is_at_or_before, later_of};

/// Whether y is less than half the circle of sequence numbers past x (RFC 9293 section 3.4).
pub fn is_at_or_before(x: u32, y: u32) -> bool
    ensures { result ≡ is_at_or_before x y }
{
    y.wrapping_sub(x) < 1 << 31
}

pub fn later_of(x: u32, y: u32) -> u32
    ensures { result ≡ later_of x y }
{
    if is_at_or_before(x, y) { y } else { x }
}
