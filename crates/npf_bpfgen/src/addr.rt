// Tests of the addresses: blocks by the first bits of their words, tables by the coprocessor.
//
// First bits are compared behind a shift, an IPv6 prefix's word by word. A shift by 32 leaves 0, so a prefix of length 0 needs no case; for
// that each byte has to be below 256.
ghost use Rattle.std.specs.Prelude.{◌≡◌, ◌≤◌, ◌<◌, ◌+◌, ◌-◌, ◌^◌, ◌/◌, ◌%◌, OnOk, Option, Some, All, false, length, min, not, true};
ghost use Rattle.std.specs.List.{list_any, sum_by};
ghost use Rattle.npf_types.specs.Address.{first_bits, shares_first};
ghost use Rattle.npf_types.specs.declared.address.Addr.TheVariants.{V4, V6};
ghost use Rattle.npf_types.specs.Prefix.{has_address};
ghost use Rattle.npf_model.specs.Describes.{fits_addrs, item_has, table_has};
ghost use Rattle.npf_bpfgen.specs.Condition.{HasItemNumber};
ghost use Rattle.npf_bpfgen.specs.Endpoint.{address_of};
ghost use Rattle.npf_bpfgen.specs.Premise.{BranchesOnPacket, GuardsPacket};
ghost use Rattle.npf_bpfgen.specs.Tail.{Extends};
ghost use Rattle.npf_bpfgen.specs.Instruction.{first_bits_of_half, first_bits_of_word};
ghost use Rattle.npf_bpfgen.specs.ProgramLength.{addrs_length, block_length, item_length};

use crate::endpoint::Endpoint;
use crate::header::{VERSION, put_families};
use crate::instruction::{if_equal, shift_right};
use crate::tail::Tail;
use npf_bpf::Operation::{AskMember, Jump, LoadAbsolute, LoadConstant, LoadMemory, ReturnConstant};
use npf_bpf::Width::Word;
use npf_model::{AddrItem, some_allow};
use npf_types::{Addr, NoMemory, Prefix};

/// Tests that some item of the list has the endpoint's address.
pub fn put_addrs(tail: &mut Tail, endpoint: Endpoint, items: &[AddrItem]) -> Result<(), NoMemory>
    requires room { length tail.old + addrs_length false (Some items.now) ≤ 4096 }
    requires numbers { All HasItemNumber items.now }
    ensures front { OnOk result (Extends (addrs_length false (Some items.now)) 1 tail.old tail.new) }
    ensures value { OnOk result (GuardsPacket (λ tables facts. fits_addrs false (Some items.now) tables (address_of endpoint facts)) tail.old tail.new) }
{
    let behind = tail.len();
    tail.put(&[ReturnConstant(0)])?;
    let mut left = items.len();
    while left > 0 {
        left -= 1;
        let over = (tail.len() - behind) as u32;
        tail.put(&[Jump(over)])?;
        put_item(tail, endpoint, items[left])?;
    }
    Ok(())
}

/// Tests that the endpoint's address is of a family that some item of the list can have, and that no item has it.
pub fn put_excluded(tail: &mut Tail, endpoint: Endpoint, items: &[AddrItem]) -> Result<(), NoMemory>
    requires numbers { All HasItemNumber items.now }
    ensures front { OnOk result (Extends (addrs_length true (Some items.now)) 1 tail.old tail.new) }
    ensures value { OnOk result (GuardsPacket (λ tables facts. fits_addrs true (Some items.now) tables (address_of endpoint facts)) tail.old tail.new) }
{
    put_absent(tail, endpoint, items)?;
    put_families(tail, some_allow(items, false), some_allow(items, true))?;
    Ok(())
}

// Tests that no item of the list has the endpoint's address.
fn put_absent(tail: &mut Tail, endpoint: Endpoint, items: &[AddrItem]) -> Result<(), NoMemory>
    requires { All HasItemNumber items.now }
    ensures front { OnOk result (Extends (sum_by item_length items.now) 1 tail.old tail.new) }
    ensures value { OnOk result (GuardsPacket (λ tables facts. not (list_any (item_has tables (address_of endpoint facts)) items.now)) tail.old tail.new) }
{
    let mut left = items.len();
    while left > 0 {
        left -= 1;
        tail.put(&[ReturnConstant(0)])?;
        put_item(tail, endpoint, items[left])?;
    }
    Ok(())
}

fn put_item(tail: &mut Tail, endpoint: Endpoint, item: AddrItem) -> Result<(), NoMemory>
    requires { HasItemNumber item }
    ensures front { OnOk result (Extends (item_length item - 1) 2 tail.old tail.new) }
    ensures value { OnOk result (BranchesOnPacket (λ tables facts. item_has tables (address_of endpoint facts) item) tail.old tail.new) }
{
    match item {
        AddrItem::Net(prefix) => put_block(tail, endpoint, prefix),
        AddrItem::InTable(table) => put_table(tail, endpoint, table),
    }
}

fn put_block(tail: &mut Tail, endpoint: Endpoint, prefix: Prefix) -> Result<(), NoMemory>
    ensures front { OnOk result (Extends (block_length prefix.addr - 1) 2 tail.old tail.new) }
    ensures value { OnOk result (BranchesOnPacket (λ tables facts. has_address prefix (address_of endpoint facts)) tail.old tail.new) }
{
    match prefix.addr {
        Addr::V4(addr) => put_block_v4(tail, endpoint, addr, prefix.len),
        Addr::V6(addr) => put_block_v6(tail, endpoint, addr, prefix.len),
    }
}

fn put_block_v4(tail: &mut Tail, endpoint: Endpoint, addr: u32, len: u8) -> Result<(), NoMemory>
    requires { len ≤ 32 }
    ensures front { OnOk result (Extends 5 2 tail.old tail.new) }
    ensures value { OnOk result (BranchesOnPacket (λ tables facts. shares_first len (V4 addr) (address_of endpoint facts)) tail.old tail.new) }
{
    tail.put(&[
        LoadMemory(VERSION),
        if_equal(4, 0, 4),
        LoadAbsolute(Word, endpoint.ipv4_place()),
        shift_right(u32::from(32 - len)),
        if_equal(first_bits_of(addr, len), 0, 1),
    ])?;
    Ok(())
}

// Each of the four words is tested for those of the first bits that lie in it.
fn put_block_v6(tail: &mut Tail, endpoint: Endpoint, addr: u128, len: u8) -> Result<(), NoMemory>
    requires { len ≤ 128 }
    ensures front { OnOk result (Extends 14 2 tail.old tail.new) }
    ensures value { OnOk result (BranchesOnPacket (λ tables facts. shares_first len (V6 addr) (address_of endpoint facts)) tail.old tail.new) }
{
    let at = endpoint.ipv6_place();
    let high = (addr >> 64) as u64;
    let low = (addr % 0x1_0000_0000_0000_0000) as u64;
    put_half(tail, at + 8, low, len.saturating_sub(64), 1)?;
    put_half(tail, at, high, len.min(64), 7)?;
    tail.put(&[LoadMemory(VERSION), if_equal(6, 0, 13)])?;
    Ok(())
}

// The same of two words.
fn put_half(tail: &mut Tail, at: u32, half: u64, bits: u8, far: u8) -> Result<(), NoMemory>
    requires bits { bits ≤ 64 }
    requires at { at ≤ 32 }
    requires far { far ≤ 7 }
    ensures { OnOk result (tail.new ≡ first_bits_of_half at bits half far tail.old) }
{
    let high = (half >> 32) as u32;
    let low = (half % 0x1_0000_0000) as u32;
    put_word(tail, at + 4, low, bits.saturating_sub(32), far)?;
    put_word(tail, at, high, bits.min(32), far + 3)
}

// Goes on where the word has these first bits, or else as far as `far` says.
fn put_word(tail: &mut Tail, at: u32, word: u32, bits: u8, far: u8) -> Result<(), NoMemory>
    requires { bits ≤ 32 }
    ensures { OnOk result (tail.new ≡ first_bits_of_word at bits word far tail.old) }
{
    tail.put(&[
        LoadAbsolute(Word, at),
        shift_right(u32::from(32 - bits)),
        if_equal(first_bits_of(word, bits), 0, far),
    ])?;
    Ok(())
}

fn first_bits_of(word: u32, bits: u8) -> u32
    requires { bits ≤ 32 }
    ensures { result ≡ first_bits 32 bits word }
{
    if bits == 0 { 0 } else { word >> (32 - bits) }
}

fn put_table(tail: &mut Tail, endpoint: Endpoint, table: u32) -> Result<(), NoMemory>
    requires { table < 2 ^ 31 }
    ensures front { OnOk result (Extends 3 2 tail.old tail.new) }
    ensures value { OnOk result (BranchesOnPacket (λ tables facts. table_has tables table (address_of endpoint facts)) tail.old tail.new) }
{
    tail.put(&[
        LoadConstant(endpoint.asked_table(table)),
        AskMember,
        if_equal(1, 0, 1),
    ])?;
    Ok(())
}
