// The machine: bpf(4)'s table, carried out. Instructions are decoded as they are met; that none of a valid program is unknown is proved.
ghost use Rattle.std.specs.Prelude.{◌≡◌, ◌+◌, ◌<◌, length, slice_set};
ghost use Rattle.npf_bpf.specs.Effect.{branched, effect_of, operand_value, or_return_0, with_accumulator, with_index, with_ip_header, with_member, with_memory};
ghost use Rattle.npf_bpf.specs.State.{initial};
ghost use Rattle.npf_bpf.specs.Validity.{IsValid, StaysInMemory};
ghost use Rattle.npf_bpf.specs.Value.{program_value};
ghost use Rattle.npf_bpfvm.specs.Machine.{IsOperationAt, effect_told, bpf_state};

use crate::arithmetic::{calculate, compare};
use crate::cop::Cop;
use crate::load::{header_length_at, length_of, load};
use npf_bpf::Operation::{
    AskHeader, AskMember, Calculate, CopyToAccumulator, CopyToIndex, Jump, JumpIf, LoadAbsolute,
    LoadConstant, LoadIndexConstant, LoadIndexHeader, LoadIndexLength, LoadIndexMemory,
    LoadIndirect, LoadLength, LoadMemory, Negate, ReturnAccumulator, ReturnConstant, Store,
    StoreIndex,
};
use npf_bpf::{Comparison, Distances, Insn, MEMORY_WORDS, Operand, Operation, Program, decode};

/// The number that a program returns on a packet, which begins at its IP header.
pub fn run<C: Cop>(program: &Program, packet: &[u8], cop: &C) -> u32
    ensures { result ≡ program_value program.now packet.now (C.tells cop.now) }
{
    let insns = program.insns();
    let mut registers = Registers::new();
    let mut at = 0;
    'steps: loop {
        let operation = operation_at(insns, at);
        match registers.step(operation, packet, cop) {
            Next::Returned(number) => return number,
            Next::Onward(distance) => at += 1 + distance as usize,
        }
    }
}

// The operation of an instruction of a valid program.
fn operation_at(insns: &[Insn], at: usize) -> Operation
    requires valid { IsValid insns.now }
    requires within { at < length insns.now }
    ensures { IsOperationAt insns.now at result }
{
    match decode(insns[at]) {
        Some(operation) => operation,
        None => unreachable!(),
    }
}

// Where an operation leads: to the instruction so far behind the next one, or out of the program.
#[derive(Clone, Copy)]
enum Next {
    Onward(u32),
    Returned(u32),
}

// A, X and M.
#[derive(Drop)]
struct Registers {
    accumulator: u32,
    index: u32,
    memory: [u32; MEMORY_WORDS],
}

impl Registers {
    fn new() -> Self
        ensures { bpf_state result ≡ initial }
    {
        Registers {
            accumulator: 0,
            index: 0,
            memory: [0; MEMORY_WORDS],
        }
    }

    fn step<C: Cop>(&mut self, operation: Operation, packet: &[u8], cop: &C) -> Next
        requires { StaysInMemory operation }
        ensures { effect_told result self.new
            ≡ effect_of operation (bpf_state self.old) packet.now (C.tells cop.now) }
    {
        match operation {
            LoadAbsolute(width, k) => self.load(load(packet, width, u64::from(k))),
            LoadIndirect(width, k) => self.load(load(packet, width, self.indirect(k))),
            LoadConstant(k) => self.set_accumulator(k),
            LoadMemory(k) => self.set_accumulator(self.memory[k as usize]),
            LoadLength => self.set_accumulator(length_of(packet)),
            LoadIndexConstant(k) => self.set_index(k),
            LoadIndexMemory(k) => self.set_index(self.memory[k as usize]),
            LoadIndexLength => self.set_index(length_of(packet)),
            LoadIndexHeader(k) => self.load_index(header_length_at(packet, k)),
            Store(k) => self.store(k, self.accumulator),
            StoreIndex(k) => self.store(k, self.index),
            Calculate(arithmetic, operand) => {
                self.load(calculate(arithmetic, self.accumulator, self.value_of(operand)))
            }
            Negate => self.set_accumulator(self.accumulator.wrapping_neg()),
            Jump(k) => Next::Onward(k),
            JumpIf(comparison, operand, distances) => self.branch(comparison, operand, distances),
            ReturnConstant(k) => Next::Returned(k),
            ReturnAccumulator => Next::Returned(self.accumulator),
            CopyToIndex => self.set_index(self.accumulator),
            CopyToAccumulator => self.set_accumulator(self.index),
            AskHeader => self.ask_header(cop),
            AskMember => self.ask_member(cop),
        }
    }

    fn set_accumulator(&mut self, value: u32) -> Next
        ensures { effect_told result self.new ≡ with_accumulator (bpf_state self.old) value }
    {
        self.accumulator = value;
        Next::Onward(0)
    }

    fn set_index(&mut self, value: u32) -> Next
        ensures { effect_told result self.new ≡ with_index (bpf_state self.old) value }
    {
        self.index = value;
        Next::Onward(0)
    }

    // Without a number to load the program returns 0.
    fn load(&mut self, value: Option<u32>) -> Next
        ensures { effect_told result self.new ≡ or_return_0 value (with_accumulator (bpf_state self.old)) }
    {
        match value {
            Some(value) => self.set_accumulator(value),
            None => Next::Returned(0),
        }
    }

    fn load_index(&mut self, value: Option<u32>) -> Next
        ensures { effect_told result self.new ≡ or_return_0 value (with_index (bpf_state self.old)) }
    {
        match value {
            Some(value) => self.set_index(value),
            None => Next::Returned(0),
        }
    }

    fn store(&mut self, k: u32, value: u32) -> Next
        requires { k < 16 }
        ensures { effect_told result self.new
            ≡ with_memory (bpf_state self.old) (slice_set self.old.memory k value) }
    {
        self.memory[k as usize] = value;
        Next::Onward(0)
    }

    // X + k, which may pass 32 bits.
    fn indirect(&self, k: u32) -> u64
        ensures { result ≡ self.now.index + k }
    {
        u64::from(self.index) + u64::from(k)
    }

    fn value_of(&self, operand: Operand) -> u32
        ensures { result ≡ operand_value operand (bpf_state self.now) }
    {
        match operand {
            Operand::Constant(k) => k,
            Operand::Index => self.index,
        }
    }

    fn branch(&self, comparison: Comparison, operand: Operand, distances: Distances) -> Next
        ensures { effect_told result self.now ≡ branched comparison operand distances (bpf_state self.now) }
    {
        if compare(comparison, self.accumulator, self.value_of(operand)) {
            Next::Onward(u32::from(distances.on_true))
        } else {
            Next::Onward(u32::from(distances.on_false))
        }
    }

    fn ask_header<C: Cop>(&mut self, cop: &C) -> Next
        ensures { effect_told result self.new ≡ with_ip_header (bpf_state self.old) (C.tells cop.now).header }
    {
        let (version, offset, protocol) = cop.header();
        self.memory[0] = version;
        self.memory[1] = offset;
        self.memory[2] = protocol;
        self.set_accumulator(version)
    }

    fn ask_member<C: Cop>(&mut self, cop: &C) -> Next
        ensures { effect_told result self.new ≡ with_member (bpf_state self.old) (C.tells cop.now).member }
    {
        let table = self.accumulator & 0x7fff_ffff;
        let source = self.accumulator & 0x8000_0000 != 0;
        self.set_accumulator(u32::from(cop.member(table, source)))
    }
}
