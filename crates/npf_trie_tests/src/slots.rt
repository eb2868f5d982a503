// The slots of small tables, whose bits lie in a word or two, and the incarnations of what a pass claimed.
ghost use Rattle.std.specs.Prelude.{◌≡◌, ◌≤◌};
ghost use Rattle.npf_cells.specs.Cells.{IsPassIn};
ghost use Rattle.npf_cells_rule.specs.Passes.{IsProtected};

use crate::answers::{put, same};
use crate::by_protocol::ByProtocol;
use npf_cells::{CellPass, Cells, Pool};
use npf_epoch::{enter, leave};
use npf_flow::FlowLaw;
use npf_pool::take;
use npf_pool_beginning::begin;
use std::alloc::Global;
use std::sync::Wait;
use std::test::Fail;

// Three slots: the word's highest 61 bits name none, and count as claimed, so that the word is 2^64 - 8, and 2^64 - 6 once the second
// is claimed.
fn tell_claims(alloc: Global, told: &mut String) -> Result<(), Fail> {
    let (cells, mut pass) = Cells::<FlowLaw, ByProtocol>::new(alloc, 3, 16)?;
    enter(&cells, &mut pass);
    let before = cells.load_pool(&mut pass, Pool::Slots, 0);
    let first = cells.claim(&mut pass, Pool::Slots, 1, 7);
    let after = cells.load_pool(&mut pass, Pool::Slots, 0);
    let second = cells.claim(&mut pass, Pool::Slots, 1, 8);
    leave(&cells, &mut pass);
    put(told, &[before, after])?;
    put(told, &[first, second])
}

// Takes the slots that are left. Answers whether they were the first ones, in order, and how many they were.
fn takes_all(
    rt: &impl Wait,
    cells: &Cells<FlowLaw, ByProtocol>,
    pass: &mut CellPass<FlowLaw>,
) -> (bool, u32)
    requires own { IsPassIn cells.now pass.old }
    requires protected { IsProtected pass.old.seat.me.0.epochs.pin }
    ensures own { IsPassIn cells.now pass.new }
    ensures protected { IsProtected pass.new.seat.me.0.epochs.pin }
    ensures locks { pass.new.seat.me.0.trie.locks ≡ pass.old.seat.me.0.trie.locks }
{
    let mut ordered = true;
    for count in 0..100u32 {
        match take(rt, cells, pass, Pool::Slots, 7) {
            Some(slot) => ordered = ordered && slot == count,
            None => return (ordered, count),
        }
    }
    (ordered, 100)
}

fn tell_taken(rt: &impl Wait, alloc: Global, told: &mut String) -> Result<(), Fail> {
    let (cells, mut pass) = Cells::<FlowLaw, ByProtocol>::new(alloc, 70, 16)?;
    enter(&cells, &mut pass);
    let taken = takes_all(rt, &cells, &mut pass);
    let last = cells.load_pool(&mut pass, Pool::Slots, 1);
    leave(&cells, &mut pass);
    put(told, &(taken, last == u64::MAX))
}

// Takes one slot after the other by two passes in turn, until either finds none. Answers how many they were.
fn take_in_turn(
    rt: &impl Wait,
    cells: &Cells<FlowLaw, ByProtocol>,
    pass: &mut CellPass<FlowLaw>,
    other: &mut CellPass<FlowLaw>,
) -> u32
    requires own { IsPassIn cells.now pass.old }
    requires other_own { IsPassIn cells.now other.old }
    requires protected { IsProtected pass.old.seat.me.0.epochs.pin }
    requires other_protected { IsProtected other.old.seat.me.0.epochs.pin }
{
    for count in 0..5000u32 {
        match take(rt, cells, pass, Pool::Slots, 7) {
            Some(_) => {}
            None => return 2 * count,
        }
        match take(rt, cells, other, Pool::Slots, 7) {
            Some(_) => {}
            None => return 2 * count + 1,
        }
    }
    10_000
}

// Of a table of so many slots two passes take all, and one more is refused.
fn tell_full(rt: &impl Wait, alloc: Global, slots: u32, told: &mut String) -> Result<(), Fail>
    requires { (1 ≤ slots) × (slots ≤ 65536) }
{
    let (cells, mut pass) = Cells::<FlowLaw, ByProtocol>::new(alloc, slots, 16)?;
    let mut other = cells.split(&mut pass);
    enter(&cells, &mut pass);
    enter(&cells, &mut other);
    put(told, &take_in_turn(rt, &cells, &mut pass, &mut other))
}

// Two slots, and what each of three connections is.
fn tell_begun(rt: &impl Wait, alloc: Global, told: &mut String) -> Result<(), Fail> {
    let (cells, mut pass) = Cells::<FlowLaw, ByProtocol>::new(alloc, 2, 16)?;
    enter(&cells, &mut pass);
    let begun = [
        begin(rt, &cells, &mut pass),
        begin(rt, &cells, &mut pass),
        begin(rt, &cells, &mut pass),
    ];
    leave(&cells, &mut pass);
    put(told, &begun)
}

#[test]
fn slots_are_claimed_once(rt: HostRuntime) -> Result<(), Fail> {
    let mut told = String::new(rt.alloc());
    tell_claims(rt.alloc(), &mut told)?;
    tell_taken(&rt, rt.alloc(), &mut told)?;
    tell_full(&rt, rt.alloc(), 64, &mut told)?;
    // Of 66 words each pass begins with its own.
    tell_full(&rt, rt.alloc(), 4224, &mut told)?;
    tell_begun(&rt, rt.alloc(), &mut told)?;
    same(
        &rt,
        told.as_str(),
        "[18446744073709551608, 18446744073709551610]
[true, false]
((true, 70), true)
64
4224
[Some(ConnId { slot: 0, inc: 1 }), Some(ConnId { slot: 1, inc: 1 }), None]
",
    );
    Ok(())
}
