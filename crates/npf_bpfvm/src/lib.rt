// The classic BPF machine of McCanne and Jacobson ("The BSD Packet Filter: A New Architecture for
// User-level Packet Capture", USENIX 1993; bpf(4)), with the coprocessor call of NetBSD's bpf(4).
//
// The machine has an accumulator A, an index register X and a store M of 16 words, all 0 at first.
// Each instruction changes them, and goes on further down the program or returns a number. There is
// no way back, so a program of n instructions takes at most n steps (a law of npf_bpf).
//
// The contract in words: on every valid program, every packet and every coprocessor, `run` returns
// the program's value, which npf_bpf defines by an equation for each row of bpf(4)'s table. It
// always returns, and takes no memory.
#![tactic(auto)]

mod arithmetic;
mod cop;
mod load;
mod machine;

pub use cop::Cop;
pub use machine::run;
