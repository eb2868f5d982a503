// Instructions by the names that tcpdump -d prints for those of bpf(4), or by their four numbers.

use anyhow::{Context, Result, anyhow};
use npf_bpf::Insn;
use std::alloc::Global;

/// The instructions between semicolons.
pub fn parse_program(alloc: Global, text: &str) -> Result<Vec<Insn>> {
    let mut code = Vec::new(alloc);
    for part in text.split(';') {
        let words: Vec<&str> = part.split_whitespace().collect(alloc)?;
        if !words.is_empty() {
            add_insns(&mut code, &words)?;
        }
    }
    Ok(code)
}

/// Adds an instruction, as often as the words before it say: `COUNT times`.
fn add_insns(code: &mut Vec<Insn>, words: &[&str]) -> Result<()> {
    let (count, insn) = match *words {
        [count, "times", ref insn @ ..] => (count.parse()?, insn),
        _ => (1u32, words),
    };
    let insn = parse_insn(insn)?;
    for _ in 0..count {
        code.push(insn)?;
    }
    Ok(())
}

/// One instruction. Its distances count from the next one.
pub fn parse_insn(words: &[&str]) -> Result<Insn> {
    match *words {
        [name] => named(name, (0, 0), "0", "0"),
        [name, operand] => named(name, parse_operand(operand)?, "0", "0"),
        [name, operand, "jt", jt, "jf", jf] => named(name, parse_operand(operand)?, jt, jf),
        ["code", code, jt, jf, k] => Ok(Insn {
            code: u16::try_from(parse_number(code)?)?,
            jt: jt.parse()?,
            jf: jf.parse()?,
            k: parse_number(k)?,
        }),
        _ => Err(anyhow!("no such instruction")),
    }
}

fn named(name: &str, (mode, k): (u16, u32), jt: &str, jf: &str) -> Result<Insn> {
    Ok(Insn {
        code: code_of(name, mode)?,
        jt: jt.parse()?,
        jf: jf.parse()?,
        k,
    })
}

/// An instruction's number in the table of bpf(4), of which its operand has some bits. A store has none: it is to M alone.
fn code_of(name: &str, mode: u16) -> Result<u16> {
    let code = match name {
        "ld" => 0x00,
        "ldh" => 0x08,
        "ldb" => 0x10,
        "ldx" => 0x01,
        "ldxb" => 0x11,
        "st" => return Ok(0x02),
        "stx" => return Ok(0x03),
        "add" => 0x04,
        "sub" => 0x14,
        "mul" => 0x24,
        "div" => 0x34,
        "or" => 0x44,
        "and" => 0x54,
        "lsh" => 0x64,
        "rsh" => 0x74,
        "neg" => 0x84,
        "ja" => 0x05,
        "jeq" => 0x15,
        "jgt" => 0x25,
        "jge" => 0x35,
        "jset" => 0x45,
        "ret" => 0x06,
        "tax" => 0x07,
        "cop" => 0x27,
        "txa" => 0x87,
        _ => return Err(anyhow!("no such name")),
    };
    Ok(code | mode)
}

/// An operand's bits in the code, and its number.
fn parse_operand(word: &str) -> Result<(u16, u32)> {
    match word {
        "x" => Ok((0x08, 0)),
        "a" => Ok((0x10, 0)),
        "#pktlen" => Ok((0x80, 0)),
        _ => match word.strip_prefix("#") {
            Some(k) => Ok((0x00, parse_number(k)?)),
            None => parse_place(word),
        },
    }
}

/// A place of the packet or of M: `[k]`, `[x+k]`, `4*([k]&0xf)` or `M[k]`.
fn parse_place(word: &str) -> Result<(u16, u32)> {
    let (before, rest) = word.split_once('[').context("no such operand")?;
    let (k, _) = rest.split_once(']').context("no such place")?;
    match (before, k.strip_prefix("x+")) {
        ("", None) => Ok((0x20, parse_number(k)?)),
        ("", Some(k)) => Ok((0x40, parse_number(k)?)),
        ("M", None) => Ok((0x60, parse_number(k)?)),
        ("4*(", None) => Ok((0xa0, parse_number(k)?)),
        _ => Err(anyhow!("no such place")),
    }
}

/// A number of decimal digits, or of hexadecimal ones behind `0x`.
fn parse_number(word: &str) -> Result<u32> {
    match word.strip_prefix("0x") {
        Some(digits) => Ok(u32::from_str_radix(digits, 16)?),
        None => Ok(word.parse()?),
    }
}
