// Blocks of addresses as ranges of numbers.
ghost use Rattle.std.specs.Prelude.{◌≡◌, ◌≤◌, ◌-◌, ◌^◌, ◌++◌, OnOk, IfOk};
ghost use Rattle.std.specs.List.{flat_map};
ghost use Rattle.npf_products.specs.Condition.{last_number, prefix_range, table_ranges};

use crate::kind::IpFamily;
use npf_types::{Addr, List, NoMemory, Prefix};
use std::alloc::Global;

/// Puts the addresses of the block behind the ranges, if they are of the family.
pub(crate) fn add_block(
    ranges: &mut Vec<(u128, u128)>,
    family: IpFamily,
    prefix: &Prefix,
) -> Result<(), NoMemory>
    ensures { OnOk result (ranges.new.items ≡ ranges.old.items ++ prefix_range family prefix.now) }
{
    match (family, prefix.addr) {
        (IpFamily::Inet4, Addr::V4(first)) => {
            ranges.push((u128::from(first), last_number(prefix)))?;
        }
        (IpFamily::Inet6, Addr::V6(first)) => ranges.push((first, last_number(prefix)))?,
        _ => {}
    }
    Ok(())
}

/// The last address of the block.
fn last_number(prefix: &Prefix) -> u128
    ensures { result ≡ last_number prefix.now.addr prefix.now.len }
{
    match prefix.addr {
        Addr::V4(first) => u128::from(first) + others(32 - prefix.len),
        Addr::V6(first) => first + others(128 - prefix.len),
    }
}

/// How many numbers of so many bits there are besides 0.
fn others(bits: u8) -> u128
    requires { bits ≤ 128 }
    ensures { result ≡ 2 ^ bits - 1 }
{
    if bits == 128 {
        u128::MAX
    } else {
        (1 << bits) - 1
    }
}

/// The addresses of each table that are of the family.
pub(crate) fn ranges_of_tables(
    alloc: Global,
    family: IpFamily,
    tables: &[List<Prefix>],
) -> Result<Vec<List<(u128, u128)>>, NoMemory>
    ensures { IfOk result (λ made. made.items ≡ table_ranges family tables.now) }
{
    let mut made = Vec::new(alloc);
    for table in tables {
        made.push(List::of_vec(ranges_of_blocks(alloc, family, table.as_slice())?))?;
    }
    Ok(made)
}

fn ranges_of_blocks(
    alloc: Global,
    family: IpFamily,
    blocks: &[Prefix],
) -> Result<Vec<(u128, u128)>, NoMemory>
    ensures { IfOk result (λ ranges. ranges.items ≡ flat_map (prefix_range family) blocks.now) }
{
    let mut ranges = Vec::new(alloc);
    for prefix in blocks {
        add_block(&mut ranges, family, prefix)?;
    }
    Ok(ranges)
}
