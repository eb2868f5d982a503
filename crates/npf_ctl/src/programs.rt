// What is said of a configuration's rules: how many there are, and the program of each.
ghost use Rattle.std.specs.Prelude.{◌≡◌, ◌++◌, IfOk, OnOk};
ghost use Rattle.npf_ruleset.specs.Configuration.{programs};
ghost use Rattle.npf_ctl.specs.Texts.{insn_text, program_text, programs_text, valid_text};

use npf_bpf::{Insn, Program};
use npf_ruleset::Config;
use npf_text::{write_counted, write_number, write_text};
use npf_types::NoMemory;
use std::alloc::Global;

/// How many rules the configuration has, with those of its rulesets.
pub(crate) fn count_text(alloc: Global, config: &Config) -> Result<Vec<u8>, NoMemory>
    ensures { IfOk result (λ text. text.items ≡ valid_text config.now.model) }
{
    let mut text = Vec::new(alloc);
    write_text(&mut text, "valid ")?;
    write_number(&mut text, config.rules().len() as u64)?;
    write_text(&mut text, " rules\n")?;
    Ok(text)
}

/// The program of each rule, numbered from 1 in the order of inspection.
pub(crate) fn programs_text(alloc: Global, config: &Config) -> Result<Vec<u8>, NoMemory>
    ensures { IfOk result (λ text. text.items ≡ programs_text 1 (programs config.now)) }
{
    let mut text = Vec::new(alloc);
    for (place, rule) in config.rules().iter().enumerate() {
        write_program(&mut text, place as u64 + 1, rule.program())?;
    }
    Ok(text)
}

// Appends the number of a rule, how many instructions its program has, and each of them.
fn write_program(into: &mut Vec<u8>, number: u64, program: &Program) -> Result<(), NoMemory>
    ensures { OnOk result (into.new.items ≡ into.old.items ++ program_text number program.now) }
{
    let insns = program.insns();
    write_counted(into, "rule ", number)?;
    write_counted(into, "\n", insns.len() as u64)?;
    write_text(into, "\n")?;
    for insn in insns {
        write_insn(into, insn)?;
    }
    Ok(())
}

// Appends the line of an instruction: its code, the two distances of a jump, and its constant.
fn write_insn(into: &mut Vec<u8>, insn: &Insn) -> Result<(), NoMemory>
    ensures { OnOk result (into.new.items ≡ into.old.items ++ insn_text insn.now) }
{
    write_number(into, u64::from(insn.code))?;
    write_counted(into, " ", u64::from(insn.jt))?;
    write_counted(into, " ", u64::from(insn.jf))?;
    write_counted(into, " ", u64::from(insn.k))?;
    write_text(into, "\n")
}
