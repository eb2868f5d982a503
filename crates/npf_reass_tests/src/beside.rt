// Passes that offer beside one another, each in a thread of its own.
ghost use Rattle.std.specs.Prelude.{◌≡◌, ◌<◌, ◌+◌};
ghost use Rattle.std.specs.Thread.{IsSync};
ghost use Rattle.npf_reass.specs.Passes.{IsReassPass, sight};

use crate::offers::piece_of_number;
use npf_pieces::Piece;
use npf_reass::{Reass, ReassPass, class_of};
use npf_types::NoMemory;
use std::alloc::Global;
use std::fmt::Write;
use std::sync::Wait;
use std::test::Fail;
use std::thread::{Threads, join};

const CLASSES: u32 = 4;

const PASSES: u64 = 8;

/// How many pieces each pass offers.
const ROUNDS: u64 = 500;

// Offers every eighth number from the first one on: the pieces of each datagram are offered by all passes.
fn offer_share(
    rt: &impl Wait,
    reass: &Reass,
    pass: ReassPass,
    first: u64,
) -> (ReassPass, Result<(), NoMemory>)
    requires own { IsReassPass reass.now pass }
    requires first { first < PASSES }
    ensures own { IsReassPass reass.now result.0 }
    ensures places { (sight result.0).places ≡ (sight pass).places }
{
    let mut pass = pass;
    for round in 0..ROUNDS {
        let number = PASSES * round + first;
        if reass
            .offer(rt, &mut pass, number, piece_of_number(number))
            .is_err()
        {
            return (pass, Err(NoMemory));
        }
    }
    (pass, Ok(()))
}

// The offers of the passes from this number down to 0, of which all but the last are split off and taken in again.
fn offer_beside<R: Threads + Wait + Sync>(
    rt: &R,
    reass: &Reass,
    pass: ReassPass,
    number: u64,
) -> (ReassPass, Result<(), NoMemory>)
    requires own { IsReassPass reass.now pass }
    requires number { number < PASSES }
    requires places { (sight pass).places ≡ number + 1 }
    ensures own { IsReassPass reass.now result.0 }
    ensures places { (sight result.0).places ≡ number + 1 }
{
    if number == 0 {
        return offer_share(rt, reass, pass, 0);
    }
    let mut pass = pass;
    let other = reass.split(&mut pass);
    let ((mut pass, offered), (other, others_offered)) = join(
        rt,
        move || -> (ReassPass, Result<(), NoMemory>)
            requires { IsSync R.row × IsReassPass reass.now pass × (0 < number) × (number < PASSES) × ((sight pass).places ≡ number) }
            ensures { IsReassPass reass.entry.now result.0 × ((sight result.0).places ≡ number) }
        { offer_beside(rt, reass, pass, number - 1) },
        move ||
            requires { IsReassPass reass.now other × (number < PASSES) }
        { offer_share(rt, reass, other, number) },
    );
    reass.join(&mut pass, other);
    (pass, offered.and(others_offered))
}

// Whether the list has pieces of the class alone, each by its number, which rise.
fn is_list_of(class: u32, list: &[(u64, Piece)]) -> bool {
    let mut least = 0;
    for (number, piece) in list {
        let is_own = *piece == piece_of_number(*number) && class_of(CLASSES, &piece.key) == class;
        if !is_own || *number < least || PASSES * ROUNDS <= *number {
            return false;
        }
        least = *number + 1;
    }
    true
}

// How many pieces each class has, and whether they are its own, by rising number.
fn tell_lists<R: Threads + Wait + Sync>(
    rt: &R,
    alloc: Global,
    told: &mut String,
) -> Result<(), Fail> {
    let (reass, pass) = Reass::new(alloc, CLASSES, 8)?;
    let (pass, offered) = offer_beside(rt, &reass, pass, 7);
    offered?;
    let lists = reass.close(alloc, pass)?;
    for (class, list) in (0..CLASSES).zip(&lists) {
        write!(told, "{} {}\n", list.len(), is_list_of(class, list))?;
    }
    Ok(())
}

/// Of the numbers below 4000 each datagram has 800. Two datagrams are of class 1, and one of each other.
const LISTS: &str = "800 true\n1600 true\n800 true\n800 true\n";

#[test]
fn eight_passes_offer_each_piece_once(rt: HostRuntime) -> Result<(), Fail> {
    let mut told = String::new(rt.alloc());
    tell_lists(&rt, rt.alloc(), &mut told)?;
    assert_eq!(rt; told.as_str(), LISTS);
    Ok(())
}
