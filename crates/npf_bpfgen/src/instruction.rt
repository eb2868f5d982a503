// The operations of compiled rules whose names ask for more than a number.
ghost use Rattle.std.specs.Prelude.{◌≡◌};
ghost use Rattle.npf_bpfgen.specs.Instruction.{calculation, comparison};

use npf_bpf::{Arithmetic, Comparison, Distances, Operand, Operation};

/// `A <- A & mask`
pub fn mask_with(mask: u32) -> Operation
    ensures { result ≡ calculation Arithmetic.And mask }
{
    Operation::Calculate(Arithmetic::And, Operand::Constant(mask))
}

/// `A <- A >> bits`
pub fn shift_right(bits: u32) -> Operation
    ensures { result ≡ calculation Arithmetic.ShiftRight bits }
{
    Operation::Calculate(Arithmetic::ShiftRight, Operand::Constant(bits))
}

/// `pc += (A == number) ? on_true : on_false`
pub fn if_equal(number: u32, on_true: u8, on_false: u8) -> Operation
    ensures { result ≡ comparison Comparison.Equal number on_true on_false }
{
    compare(Comparison::Equal, number, on_true, on_false)
}

/// `pc += (A > number) ? on_true : on_false`
pub fn if_greater(number: u32, on_true: u8, on_false: u8) -> Operation
    ensures { result ≡ comparison Comparison.Greater number on_true on_false }
{
    compare(Comparison::Greater, number, on_true, on_false)
}

/// `pc += (A >= number) ? on_true : on_false`
pub fn if_at_least(number: u32, on_true: u8, on_false: u8) -> Operation
    ensures { result ≡ comparison Comparison.GreaterOrEqual number on_true on_false }
{
    compare(Comparison::GreaterOrEqual, number, on_true, on_false)
}

fn compare(kind: Comparison, number: u32, on_true: u8, on_false: u8) -> Operation
    ensures { result ≡ comparison kind number on_true on_false }
{
    let distances = Distances { on_true, on_false };
    Operation::JumpIf(kind, Operand::Constant(number), distances)
}
