// Calculations and comparisons: unsigned, on 32 bits.
ghost use Rattle.std.specs.Prelude.{◌≡◌};
ghost use Rattle.npf_bpf.specs.Arithmetic.{calculated, compared};

use npf_bpf::{Arithmetic, Comparison};

/// The result of a calculation, or none of a division by 0.
pub fn calculate(arithmetic: Arithmetic, a: u32, b: u32) -> Option<u32>
    ensures { result ≡ calculated arithmetic a b }
{
    match arithmetic {
        Arithmetic::Add => Some(a.wrapping_add(b)),
        Arithmetic::Subtract => Some(a.wrapping_sub(b)),
        Arithmetic::Multiply => Some(a.wrapping_mul(b)),
        Arithmetic::Divide => a.checked_div(b),
        Arithmetic::Or => Some(a | b),
        Arithmetic::And => Some(a & b),
        Arithmetic::ShiftLeft => Some(a.checked_shl(b).unwrap_or(0)),
        Arithmetic::ShiftRight => Some(a.checked_shr(b).unwrap_or(0)),
    }
}

/// Whether a comparison holds.
pub fn compare(comparison: Comparison, a: u32, b: u32) -> bool
    ensures { result ≡ compared comparison a b }
{
    match comparison {
        Comparison::Equal => a == b,
        Comparison::Greater => a > b,
        Comparison::GreaterOrEqual => a >= b,
        Comparison::AnyBit => a & b != 0,
    }
}
