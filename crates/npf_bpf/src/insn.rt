// Instructions of classic BPF (bpf(4)).

/// One instruction, as bpf(4)'s `struct bpf_insn` has it.
#[derive(Clone, Copy, PartialEq, Eq, Debug)]
pub struct Insn {
    /// The instruction's number in the table of bpf(4).
    pub code: u16,
    /// How many instructions a comparison that holds passes over.
    pub jt: u8,
    /// How many instructions a comparison that doesn't hold passes over.
    pub jf: u8,
    /// The constant, the offset, the memory index or the distance that the code asks for.
    pub k: u32,
}
