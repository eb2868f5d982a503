// The end of a program, which grows to the front.
//
// What stands behind an instruction is known when it is put, so a jump's distance is how far the end has come since, and no length is
// reckoned in advance. Each instruction is proved once for whatever stands behind it (`Yields`). A conditional jump stays inside its test;
// the one long distance is that behind a member of a list, which no list is too long for.
ghost use Rattle.std.specs.Prelude.{◌≡◌, ◌++◌, [], IfOk, OnOk, length, map};
ghost use Rattle.npf_bpf.specs.Table.{insn_of};

use npf_bpf::{Insn, Operation};
use npf_types::NoMemory;
use std::alloc::Global;
use std::marker::Model;

/// The instructions from some place of a program to its end. They are kept in reverse, so that what
/// is put in front goes to the end of a vector.
#[derive(Drop)]
pub struct Tail {
    reversed: Vec<Insn>,
}

impl Model for Tail {
    ghost use Rattle.std.specs.Prelude.{List, reverse};
    ghost use Rattle.npf_bpf.specs.declared.insn.Insn.{Insn};

    ghost Value = { List Insn };

    ghost view = { λ tail. reverse tail.reversed.items };
}

impl Tail {
    /// No instructions yet, with room for so many.
    pub fn with_capacity(alloc: Global, capacity: usize) -> Result<Tail, NoMemory>
        ensures { IfOk result (λ tail. tail ≡ []) }
    {
        Ok(Tail {
            reversed: Vec::with_capacity(alloc, capacity)?,
        })
    }

    /// How many instructions there are.
    pub fn len(&self) -> usize
        ensures { result ≡ length self.now }
    {
        self.reversed.len()
    }

    /// Puts in front the instructions that do these operations, in this order.
    pub fn put(&mut self, front: &[Operation]) -> Result<(), NoMemory>
        ensures { OnOk result (self.new ≡ map insn_of front.now ++ self.old) }
    {
        let mut left = front.len();
        while left > 0 {
            left -= 1;
            self.reversed.push(front[left].insn())?;
        }
        Ok(())
    }

    /// The instructions, in order.
    pub fn into_code(self) -> Vec<Insn>
        ensures { result.items ≡ self }
    {
        let Tail { mut reversed } = self;
        reversed.reverse();
        reversed
    }
}
