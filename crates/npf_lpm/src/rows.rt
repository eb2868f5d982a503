// The rows of blocks in order: their first addresses, their lengths, and the lengths of the outermost blocks.
ghost use Rattle.std.specs.Prelude.{◌≡◌, ◌≤◌, ◌<◌, ◌↔◌, ◌+◌, ◌*◌, IsTrue, IfOk, OnOk, OnErr, length, map};
ghost use Rattle.std.specs.Result.{MatchResult};
ghost use Rattle.std.specs.List.{insert, remove};
ghost use Rattle.std.specs.Global.{Vec};
ghost use Rattle.std.specs.Vec.{vec_len, vec_capacity};
ghost use Rattle.npf_lpm.specs.Agree.{IsAligned};
ghost use Rattle.npf_lpm.specs.Blocks.{IsAt};
ghost use Rattle.npf_lpm.specs.Cut.{IsCut};
ghost use Rattle.npf_lpm.specs.Rows.{AreOrdered, AreRows, AreTops, IsGap, IsTop, aligned_blocks, rank};

use crate::aligned::{Aligned, agrees_in};
use npf_types::NoMemory;
use std::alloc::Global;

/// The first addresses of the blocks.
pub(crate) fn firsts_of(alloc: Global, blocks: &[Aligned]) -> Result<Vec<u128>, NoMemory>
    ensures { IfOk result (λ row. row.items ≡ map (λ b. b.first) blocks.now) }
{
    Ok(blocks.iter().map(|block| block.first).collect(alloc)?)
}

/// The lengths of the blocks.
pub(crate) fn lengths_of(alloc: Global, blocks: &[Aligned]) -> Result<Vec<u8>, NoMemory>
    ensures { IfOk result (λ row. row.items ≡ map (λ b. b.len) blocks.now) }
{
    Ok(blocks.iter().map(|block| block.len).collect(alloc)?)
}

/// The blocks of rows.
pub(crate) fn blocks_of(
    alloc: Global,
    firsts: &[u128],
    lengths: &[u8],
) -> Result<Vec<Aligned>, NoMemory>
    ensures { IfOk result (λ blocks. blocks.items ≡ aligned_blocks firsts.now lengths.now) }
{
    Ok(
        firsts
            .iter()
            .zip(lengths.iter())
            .map(|(first, len)| Aligned {
                first: *first,
                len: *len,
            })
            .collect(alloc)?,
    )
}

/// The place of a block in rows of which `count` begin at or below its first address: Ok where it is there, Err where
/// it would stand.
pub(crate) fn find(
    firsts: &[u128],
    lengths: &[u8],
    count: usize,
    block: Aligned,
) -> Result<usize, usize>
    requires ordered { AreOrdered firsts.now lengths.now }
    requires short { block.len ≤ 128 }
    requires count { IsCut (λ first. first) (block.first + 1) firsts.now count }
    ensures { MatchResult result
        (IsAt (aligned_blocks firsts.now lengths.now) block)
        (IsGap (aligned_blocks firsts.now lengths.now) block) }
{
    let place = count_before(firsts, lengths, count, block);
    if stands_at(firsts, lengths, place, block) {
        return Ok(place);
    }
    Err(place)
}

// How many blocks stand before this one. At most 129 begin where it begins.
fn count_before(firsts: &[u128], lengths: &[u8], count: usize, block: Aligned) -> usize
    requires ordered { AreOrdered firsts.now lengths.now }
    requires short { block.len ≤ 128 }
    requires count { IsCut (λ first. first) (block.first + 1) firsts.now count }
    ensures { IsCut rank (rank block) (aligned_blocks firsts.now lengths.now) result }
{
    let mut place = count;
    while place > 0 {
        if stands_before(firsts[place - 1], lengths[place - 1], block) {
            return place;
        }
        place -= 1;
    }
    place
}

// Whether the block of this first address and length stands before the other.
fn stands_before(first: u128, len: u8, block: Aligned) -> bool
    ensures { IsTrue result ↔ (first * 256 + len < rank block) }
{
    first < block.first || first == block.first && len < block.len
}

// Whether the block stands at the place.
fn stands_at(firsts: &[u128], lengths: &[u8], place: usize, block: Aligned) -> bool
    requires ordered { AreOrdered firsts.now lengths.now }
    ensures { IsTrue result ↔ IsAt (aligned_blocks firsts.now lengths.now) block place }
{
    if place >= firsts.len() {
        return false;
    }
    is_block(firsts[place], lengths[place], block)
}

// Whether it is the other.
fn is_block(first: u128, len: u8, block: Aligned) -> bool
    ensures { IsTrue result ↔ (record { first = first; len = len } ≡ block) }
{
    first == block.first && len == block.len
}

/// Writes the outermost lengths of all places.
pub(crate) fn renew(firsts: &[u128], lengths: &[u8], outermost: &mut Vec<u8>)
    requires ordered { AreOrdered firsts.now lengths.now }
    requires beside { length outermost.old.items ≡ length firsts.now }
    ensures { AreRows firsts.now lengths.now outermost.new.items }
{
    for place in 0..firsts.len() {
        outermost[place] = outermost_at(firsts, lengths, outermost, place);
    }
}

// The length of the outermost block that has the first address of the place: that of the place before if it has it,
// since blocks that overlap are nested.
fn outermost_at(firsts: &[u128], lengths: &[u8], outermost: &[u8], place: usize) -> u8
    requires ordered { AreOrdered firsts.now lengths.now }
    requires beside { length outermost.now ≡ length firsts.now }
    requires within { place < length firsts.now }
    requires tops { AreTops firsts.now lengths.now outermost.now place }
    ensures { IsTop firsts.now lengths.now outermost.now place result }
{
    if place > 0 && agrees_in(outermost[place - 1], firsts[place - 1], firsts[place]) {
        return outermost[place - 1];
    }
    lengths[place]
}

/// Puts a block into the rows at its place.
pub(crate) fn put_in(
    firsts: &mut Vec<u128>,
    lengths: &mut Vec<u8>,
    outermost: &mut Vec<u8>,
    place: usize,
    block: Aligned,
) -> Result<(), NoMemory>
    requires rows { AreRows firsts.old.items lengths.old.items outermost.old.items }
    requires place { IsGap (aligned_blocks firsts.old.items lengths.old.items) block place }
    requires aligned { IsAligned block }
    ensures rows { AreRows firsts.new.items lengths.new.items outermost.new.items }
    ensures ok { OnOk result (aligned_blocks firsts.new.items lengths.new.items
        ≡ insert (aligned_blocks firsts.old.items lengths.old.items) place block) }
    ensures firsts { OnErr result (firsts.new.items ≡ firsts.old.items) }
    ensures lengths { OnErr result (lengths.new.items ≡ lengths.old.items) }
{
    firsts.reserve(1)?;
    lengths.reserve(1)?;
    outermost.reserve(1)?;
    insert_within(firsts, place, block.first);
    insert_within(lengths, place, block.len);
    insert_within(outermost, place, block.len);
    renew(firsts, lengths, outermost);
    Ok(())
}

// Puts a value into a row that has room for it.
fn insert_within<T: Drop>(row: &mut Vec<T>, place: usize, value: T)
    requires within { place ≤ vec_len row.old }
    requires room { vec_len row.old < vec_capacity row.old }
    ensures items { row.new.items ≡ insert row.old.items place value }
    ensures len { vec_len row.new ≡ vec_len row.old + 1 }
{
    let _room = row.insert(place, value).is_ok();
}

/// Takes the block at the place out of the rows.
pub(crate) fn take_out(
    firsts: &mut Vec<u128>,
    lengths: &mut Vec<u8>,
    outermost: &mut Vec<u8>,
    place: usize,
)
    requires rows { AreRows firsts.old.items lengths.old.items outermost.old.items }
    requires within { place < length (aligned_blocks firsts.old.items lengths.old.items) }
    ensures rows { AreRows firsts.new.items lengths.new.items outermost.new.items }
    ensures taken { aligned_blocks firsts.new.items lengths.new.items
        ≡ remove (aligned_blocks firsts.old.items lengths.old.items) place }
{
    let _first = firsts.remove(place);
    let _len = lengths.remove(place);
    let _outermost = outermost.remove(place);
    renew(firsts, lengths, outermost);
}
