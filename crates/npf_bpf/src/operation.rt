// What the instructions do, by the table of bpf(4). A is the accumulator, X the index register,
// M the scratch memory store and P the packet.
ghost use Rattle.std.specs.Prelude.{◌≡◌, ◌≤◌, Some};
ghost use Rattle.npf_bpf.specs.Table.{arithmetic_code, comparison_code, coprocessor_call, decoded, insn_of, lookup, plain_insn, with_operand, insn_with_operand};

use crate::insn::Insn;
use Arithmetic::{Add, And, Divide, Multiply, Or, ShiftLeft, ShiftRight, Subtract};
use Comparison::{AnyBit, Equal, Greater, GreaterOrEqual};
use Operation::{
    AskHeader, AskMember, Calculate, CopyToAccumulator, CopyToIndex, Jump, JumpIf, LoadAbsolute,
    LoadConstant, LoadIndexConstant, LoadIndexHeader, LoadIndexLength, LoadIndexMemory,
    LoadIndirect, LoadLength, LoadMemory, Negate, ReturnAccumulator, ReturnConstant, Store,
    StoreIndex,
};
use Width::{Byte, Half, Word};

/// How many words the scratch memory store has: bpf(4)'s `BPF_MEMWORDS`.
pub const MEMORY_WORDS: usize = 16;

/// How many bytes a load takes from the packet: 4, 2 or 1.
#[derive(Clone, Copy, PartialEq, Eq, Debug)]
pub enum Width {
    Word,
    Half,
    Byte,
}

/// What A is calculated or compared with: the constant k, or X.
#[derive(Clone, Copy, PartialEq, Eq, Debug)]
pub enum Operand {
    Constant(u32),
    Index,
}

/// A calculation on A. All are unsigned and modulo 2^32.
#[derive(Clone, Copy, PartialEq, Eq, Debug)]
pub enum Arithmetic {
    Add,
    Subtract,
    Multiply,
    Divide,
    Or,
    And,
    ShiftLeft,
    ShiftRight,
}

/// An unsigned comparison of A with its operand. `AnyBit` holds where they share a bit.
#[derive(Clone, Copy, PartialEq, Eq, Debug)]
pub enum Comparison {
    Equal,
    Greater,
    GreaterOrEqual,
    AnyBit,
}

/// How far a comparison goes on, counted from the next instruction.
#[derive(Clone, Copy, PartialEq, Eq, Debug)]
pub struct Distances {
    pub on_true: u8,
    pub on_false: u8,
}

/// What an instruction does.
#[derive(Clone, Copy, PartialEq, Eq, Debug)]
pub enum Operation {
    /// `A <- P[k:width]`
    LoadAbsolute(Width, u32),
    /// `A <- P[X+k:width]`
    LoadIndirect(Width, u32),
    /// `A <- k`
    LoadConstant(u32),
    /// `A <- M[k]`
    LoadMemory(u32),
    /// `A <- len`
    LoadLength,
    /// `X <- k`
    LoadIndexConstant(u32),
    /// `X <- M[k]`
    LoadIndexMemory(u32),
    /// `X <- len`
    LoadIndexLength,
    /// `X <- 4*(P[k:1]&0xf)`, the length of an IPv4 header that begins at k
    LoadIndexHeader(u32),
    /// `M[k] <- A`
    Store(u32),
    /// `M[k] <- X`
    StoreIndex(u32),
    /// `A <- A op k`, `A <- A op X`
    Calculate(Arithmetic, Operand),
    /// `A <- -A`
    Negate,
    /// `pc += k`
    Jump(u32),
    /// `pc += (A > k) ? jt : jf`
    JumpIf(Comparison, Operand, Distances),
    /// accept k bytes
    ReturnConstant(u32),
    /// accept A bytes
    ReturnAccumulator,
    /// `X <- A`
    CopyToIndex,
    /// `A <- X`
    CopyToAccumulator,
    /// coprocessor function 0: what the packet's header is
    AskHeader,
    /// coprocessor function 1: whether a table has an address
    AskMember,
}

/// What an instruction does, or none where bpf(4)'s table doesn't have its code.
#[inline(always)]
pub fn decode(insn: Insn) -> Option<Operation>
    ensures { result ≡ decoded insn }
{
    match insn.code {
        0x20 => Some(LoadAbsolute(Word, insn.k)),
        0x28 => Some(LoadAbsolute(Half, insn.k)),
        0x30 => Some(LoadAbsolute(Byte, insn.k)),
        0x40 => Some(LoadIndirect(Word, insn.k)),
        0x48 => Some(LoadIndirect(Half, insn.k)),
        0x50 => Some(LoadIndirect(Byte, insn.k)),
        0x00 => Some(LoadConstant(insn.k)),
        0x60 => Some(LoadMemory(insn.k)),
        0x80 => Some(LoadLength),
        0x01 => Some(LoadIndexConstant(insn.k)),
        0x61 => Some(LoadIndexMemory(insn.k)),
        0x81 => Some(LoadIndexLength),
        0xb1 => Some(LoadIndexHeader(insn.k)),
        0x02 => Some(Store(insn.k)),
        0x03 => Some(StoreIndex(insn.k)),
        0x84 => Some(Negate),
        0x05 => Some(Jump(insn.k)),
        0x06 => Some(ReturnConstant(insn.k)),
        0x16 => Some(ReturnAccumulator),
        0x07 => Some(CopyToIndex),
        0x87 => Some(CopyToAccumulator),
        0x27 => decode_coprocessor_call(insn.k),
        _ => decode_with_operand(insn),
    }
}

// The codes that take an operand: k, or X where the bit 0x08 is set.
#[inline(always)]
fn decode_with_operand(insn: Insn) -> Option<Operation>
    ensures { result ≡ lookup insn.code (with_operand insn) }
{
    let operand = if insn.code & 0x08 == 0 {
        Operand::Constant(insn.k)
    } else {
        Operand::Index
    };
    let distances = Distances {
        on_true: insn.jt,
        on_false: insn.jf,
    };
    match insn.code {
        0x04 | 0x0c => Some(Calculate(Add, operand)),
        0x14 | 0x1c => Some(Calculate(Subtract, operand)),
        0x24 | 0x2c => Some(Calculate(Multiply, operand)),
        0x34 | 0x3c => Some(Calculate(Divide, operand)),
        0x44 | 0x4c => Some(Calculate(Or, operand)),
        0x54 | 0x5c => Some(Calculate(And, operand)),
        0x64 | 0x6c => Some(Calculate(ShiftLeft, operand)),
        0x74 | 0x7c => Some(Calculate(ShiftRight, operand)),
        0x15 | 0x1d => Some(JumpIf(Equal, operand, distances)),
        0x25 | 0x2d => Some(JumpIf(Greater, operand, distances)),
        0x35 | 0x3d => Some(JumpIf(GreaterOrEqual, operand, distances)),
        0x45 | 0x4d => Some(JumpIf(AnyBit, operand, distances)),
        _ => None,
    }
}

#[inline(always)]
fn decode_coprocessor_call(k: u32) -> Option<Operation>
    ensures { result ≡ coprocessor_call k }
{
    match k {
        0 => Some(AskHeader),
        1 => Some(AskMember),
        _ => None,
    }
}

impl Operation {
    /// The instruction that does this, by the same table. What the operation has no use for is 0.
    pub fn insn(self) -> Insn
        ensures value { result ≡ insn_of self }
        ensures decodes { decoded result ≡ Some self }
    {
        match self {
            LoadAbsolute(Word, k) => plain_insn(0x20, k),
            LoadAbsolute(Half, k) => plain_insn(0x28, k),
            LoadAbsolute(Byte, k) => plain_insn(0x30, k),
            LoadIndirect(Word, k) => plain_insn(0x40, k),
            LoadIndirect(Half, k) => plain_insn(0x48, k),
            LoadIndirect(Byte, k) => plain_insn(0x50, k),
            LoadConstant(k) => plain_insn(0x00, k),
            LoadMemory(k) => plain_insn(0x60, k),
            LoadLength => plain_insn(0x80, 0),
            LoadIndexConstant(k) => plain_insn(0x01, k),
            LoadIndexMemory(k) => plain_insn(0x61, k),
            LoadIndexLength => plain_insn(0x81, 0),
            LoadIndexHeader(k) => plain_insn(0xb1, k),
            Store(k) => plain_insn(0x02, k),
            StoreIndex(k) => plain_insn(0x03, k),
            Calculate(arithmetic, operand) => insn_with_operand(
                arithmetic.code(),
                operand,
                NOWHERE,
            ),
            Negate => plain_insn(0x84, 0),
            Jump(k) => plain_insn(0x05, k),
            JumpIf(comparison, operand, distances) => {
                insn_with_operand(comparison.code(), operand, distances)
            }
            ReturnConstant(k) => plain_insn(0x06, k),
            ReturnAccumulator => plain_insn(0x16, 0),
            CopyToIndex => plain_insn(0x07, 0),
            CopyToAccumulator => plain_insn(0x87, 0),
            AskHeader => plain_insn(0x27, 0),
            AskMember => plain_insn(0x27, 1),
        }
    }
}

// The distances of an instruction that isn't a comparison.
const NOWHERE: Distances = Distances {
    on_true: 0,
    on_false: 0,
};

fn plain_insn(code: u16, k: u32) -> Insn
    ensures { result ≡ plain_insn code k }
{
    Insn {
        code,
        jt: 0,
        jf: 0,
        k,
    }
}

// The code is that with k; that with X is 0x08 higher.
fn insn_with_operand(code: u16, operand: Operand, distances: Distances) -> Insn
    requires { code ≤ 0x74 }
    ensures { result ≡ insn_with_operand code operand distances }
{
    let (code, k) = match operand {
        Operand::Constant(k) => (code, k),
        Operand::Index => (code + 0x08, 0),
    };
    Insn {
        code,
        jt: distances.on_true,
        jf: distances.on_false,
        k,
    }
}

impl Arithmetic {
    fn code(self) -> u16
        ensures value { result ≡ arithmetic_code self }
        ensures bound { result ≤ 0x74 }
    {
        match self {
            Add => 0x04,
            Subtract => 0x14,
            Multiply => 0x24,
            Divide => 0x34,
            Or => 0x44,
            And => 0x54,
            ShiftLeft => 0x64,
            ShiftRight => 0x74,
        }
    }
}

impl Comparison {
    fn code(self) -> u16
        ensures value { result ≡ comparison_code self }
        ensures bound { result ≤ 0x45 }
    {
        match self {
            Equal => 0x15,
            Greater => 0x25,
            GreaterOrEqual => 0x35,
            AnyBit => 0x45,
        }
    }
}
