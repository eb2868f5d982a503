// The calls, halved until a half has one item with work at most.
ghost use Rattle.std.specs.Prelude.{◌≡◌, ◌<◌, ◌+◌, length};
ghost use Rattle.std.specs.Fork.{AcceptsAt, AcceptsEach, ChangesAt, ChangesEach};
ghost use Rattle.std.specs.Thread.{IsSync};
ghost use denote.Param.Send.{IsSend};
ghost use Rattle.npf_runner_threads.specs.Parts.{IsAccepted, IsChanged};

use crate::busy::{Busy, any_busy, count_busy};
use std::thread::{Threads, join_mut};

/// Calls f(i, &mut items[i]) at each place: the items that have work beside each other, each but one in a thread of its own where one can be made. An
/// item without work takes no thread.
pub fn for_each_busy_mut<R: Threads + Sync, T: Send + Busy, F: Fn(usize, &mut T) + Sync>(
    rt: &R,
    items: &mut [T],
    f: &F,
)
    requires accepts { AcceptsEach F.Fn f.now items.old }
    ensures { ChangesEach F.Fn f.now items.old items.new }
{
    each_from(rt, f, 0, items);
}

/// Calls f at each place of a part of the items, which begins at the place `base` of the whole.
#[cycle(halves)]
fn each_from<R: Threads + Sync, T: Send + Busy, F: Fn(usize, &mut T) + Sync>(
    rt: &R,
    f: &F,
    base: usize,
    part: &mut [T],
)
    requires { IsAccepted F.Fn f.now base part.old }
    ensures { IsChanged F.Fn f.now base part.old part.new }
{
    if count_busy(part) < 2 {
        return in_turn(f, base, part);
    }
    let (front, back) = part.split_at_mut(part.len() / 2);
    let up = base + front.len();
    both_halves(rt, f, base, front, up, back);
}

/// Calls f at each place of two parts, in two threads where both have work.
#[cycle(halves)]
fn both_halves<R: Threads + Sync, T: Send + Busy, F: Fn(usize, &mut T) + Sync>(
    rt: &R,
    f: &F,
    base: usize,
    front: &mut [T],
    up: usize,
    back: &mut [T],
)
    requires some { (0 < length front.old) × (0 < length back.old) }
    requires front { IsAccepted F.Fn f.now base front.old }
    requires back { IsAccepted F.Fn f.now up back.old }
    ensures front { IsChanged F.Fn f.now base front.old front.new }
    ensures back { IsChanged F.Fn f.now up back.old back.new }
{
    if !any_busy(front) || !any_busy(back) {
        each_from(rt, f, base, front);
        each_from(rt, f, up, back);
        return;
    }
    let mut first = ||
        requires { IsSync R.row × IsSync F.row × IsSend T.row × IsAccepted F.Fn f.now base front.now }
        ensures { IsChanged F.Fn f.entry.now base front.entry.now front.exit.now }
    { each_from(rt, f, base, front) };
    let mut second = ||
        requires { IsSync R.row × IsSync F.row × IsSend T.row × IsAccepted F.Fn f.now up back.now }
        ensures { IsChanged F.Fn f.entry.now up back.entry.now back.exit.now }
    { each_from(rt, f, up, back) };
    join_mut(rt, &mut first, &mut second);
}

/// Calls f at each place of a part, one after the other.
fn in_turn<T, F: Fn(usize, &mut T)>(f: &F, base: usize, part: &mut [T])
    requires { IsAccepted F.Fn f.now base part.old }
    ensures { IsChanged F.Fn f.now base part.old part.new }
{
    for place in 0..part.len() {
        at_one(f, base + place, &mut part[place]);
    }
}

fn at_one<T, F: Fn(usize, &mut T)>(f: &F, place: usize, item: &mut T)
    requires { AcceptsAt F.Fn f.now place item.old }
    ensures { ChangesAt F.Fn f.now place item.old item.new }
{
    f(place, item);
}
