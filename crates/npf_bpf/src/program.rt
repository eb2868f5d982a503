// The validator. What is too long breaks a rule at the 4,097th instruction, so a bad one before that is told first.
ghost use Rattle.std.specs.Prelude.{◌≡◌, ◌+◌, ◌-◌, ◌<◌, ◌≤◌, ◌↔◌, IsTrue, IsOk, IfOk, IfErr, IfSome, IsNone, length};
ghost use Rattle.npf_bpf.specs.Validity.{DividesByNonzero, IsAllowed, IsFirstFault, IsReturn, IsValid, JumpsWithin, KeepsRules, StaysInMemory};

use crate::insn::Insn;
use crate::operation::{Arithmetic, MEMORY_WORDS, Operand, Operation, decode};
use std::alloc::{AllocError, Global};
use std::marker::Model;

/// How many instructions a program has at most.
pub const MAX_INSNS: usize = 4096;

/// A valid program. Contracts see it as the list of its instructions.
#[derive(Drop)]
pub struct Program {
    code: Vec<Insn>,
}

impl Model for Program {
    ghost use Rattle.std.specs.Prelude.{List};
    ghost use Rattle.npf_bpf.specs.declared.insn.Insn.{Insn};
    ghost use Rattle.npf_bpf.specs.Validity.{IsValid};

    ghost Value = { List Insn };

    ghost view = { λ p. p.code.items };

    ghost invariant = { λ p. IsValid p.code.items };
}

impl Program {
    /// The instructions.
    pub fn insns(&self) -> &[Insn]
        ensures value { result.now ≡ self.now }
        ensures valid { IsValid self.now }
    {
        &self.code
    }

    /// An equal program. It isn't validated anew.
    pub fn copy(&self, alloc: Global) -> Result<Program, AllocError>
        ensures { IfOk result (λ copy. copy ≡ self.now) }
    {
        Ok(Program {
            code: self.code.to_vec(alloc)?,
        })
    }
}

/// Where a program breaks the rules.
#[derive(Clone, Copy, PartialEq, Eq, Debug)]
pub struct BadInsn {
    /// The place of the first instruction that breaks a rule, counted from 0.
    pub at: u32,
}

/// The program of these instructions, if they keep the rules of bpf(4) and of this profile: 1 to
/// `MAX_INSNS` instructions; each in bpf(4)'s table; a memory index below `MEMORY_WORDS`; no
/// division by a constant 0; each jump to an instruction of the program; a return as the last one.
/// An empty program is refused at 0, and one that is too long at `MAX_INSNS`, unless an instruction
/// before that breaks a rule of its own. The instructions that are refused are dropped.
pub fn validate(code: Vec<Insn>) -> Result<Program, BadInsn>
    ensures accepts { IsOk result ↔ IsValid code.items }
    ensures value { IfOk result (λ p. p ≡ code.items) }
    ensures refuses { IfErr result (λ bad. IsFirstFault code.items bad.at) }
{
    match first_fault(&code) {
        Some(at) => Err(BadInsn { at }),
        None => Ok(Program { code }),
    }
}

fn first_fault(code: &[Insn]) -> Option<u32>
    ensures none { IsNone result ↔ IsValid code.now }
    ensures first { IfSome result (IsFirstFault code.now) }
{
    if code.is_empty() {
        return Some(0);
    }
    for (at, insn) in code.iter().enumerate() {
        if at == MAX_INSNS || !is_in_order(*insn, code.len() - 1 - at) {
            return Some(at as u32);
        }
    }
    None
}

// Whether the instruction may stand where that many others come after it.
fn is_in_order(insn: Insn, after: usize) -> bool
    ensures { IsTrue result ↔ KeepsRules insn after }
{
    match decode(insn) {
        Some(operation) => is_allowed(operation, after),
        None => false,
    }
}

fn is_allowed(operation: Operation, after: usize) -> bool
    ensures { IsTrue result ↔ IsAllowed operation after }
{
    stays_in_memory(operation)
        && divides_by_nonzero(operation)
        && jumps_within(operation, after)
        && (after > 0 || is_return(operation))
}

fn stays_in_memory(operation: Operation) -> bool
    ensures { IsTrue result ↔ StaysInMemory operation }
{
    match operation {
        Operation::LoadMemory(k)
        | Operation::LoadIndexMemory(k)
        | Operation::Store(k)
        | Operation::StoreIndex(k) => (k as usize) < MEMORY_WORDS,
        _ => true,
    }
}

fn divides_by_nonzero(operation: Operation) -> bool
    ensures { IsTrue result ↔ DividesByNonzero operation }
{
    match operation {
        Operation::Calculate(Arithmetic::Divide, Operand::Constant(k)) => k != 0,
        _ => true,
    }
}

fn jumps_within(operation: Operation, after: usize) -> bool
    ensures { IsTrue result ↔ JumpsWithin operation after }
{
    match operation {
        Operation::Jump(k) => (k as usize) < after,
        Operation::JumpIf(_, _, distances) => {
            (distances.on_true as usize) < after && (distances.on_false as usize) < after
        }
        _ => true,
    }
}

fn is_return(operation: Operation) -> bool
    ensures { IsTrue result ↔ IsReturn operation }
{
    match operation {
        Operation::ReturnConstant(_) | Operation::ReturnAccumulator => true,
        _ => false,
    }
}
