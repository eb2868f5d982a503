// Classic BPF: the instructions of McCanne and Jacobson's packet filter machine ("The BSD Packet
// Filter: A New Architecture for User-level Packet Capture", USENIX 1993; bpf(4)), with the
// coprocessor call of NetBSD's bpf(4), and the validator.
//
// An instruction comes as four numbers, the way a kernel is given it (`Insn`). The table of bpf(4)
// says what it does: `decode` reads the table, and gives a named `Operation` or none. `insn` goes
// the other way, and what it gives is decoded to the same operation.
//
// What a program returns is its value, which specs/Value.antt gives by an equation for each row of
// the table; npf_bpfvm computes it. Each calculation is on a state of A, X and M (specs/State.antt),
// a packet, and what a coprocessor tells (specs/Coprocessor.antt).
//
// The contract in words: `validate` accepts exactly the programs that keep the rules, and refuses
// any other at the first instruction that breaks one. So whoever holds a `Program` knows that each
// instruction is in the table, that no jump leaves the program, that no memory index is past the
// store, that no constant divisor is 0, and that the program can't run off its end.
#![tactic(auto)]

mod insn;
mod laws;
mod operation;
mod program;

pub use insn::Insn;
pub use laws::{takes_at_most_one_step_an_instruction, value_behind_others};
pub use operation::{
    Arithmetic, Comparison, Distances, MEMORY_WORDS, Operand, Operation, Width, decode,
};
pub use program::{BadInsn, MAX_INSNS, Program, validate};
