// What is listed of the offers of one pass, and of two passes on one thread.
ghost use Rattle.std.specs.Prelude.{◌≡◌};
ghost use Rattle.npf_reass.specs.Passes.{IsReassPass, sight};

use crate::offers::{piece_of_number, put_lists};
use npf_reass::{Reass, ReassPass};
use npf_types::NoMemory;
use std::alloc::Global;
use std::sync::Wait;
use std::test::Fail;

fn offer_all(
    rt: &impl Wait,
    reass: &Reass,
    pass: &mut ReassPass,
    numbers: &[u64],
) -> Result<(), NoMemory>
    requires own { IsReassPass reass.now pass.old }
    ensures own { IsReassPass reass.now pass.new }
    ensures places { (sight pass.new).places ≡ (sight pass.old).places }
{
    for number in numbers {
        reass.offer(rt, pass, *number, piece_of_number(*number))?;
    }
    Ok(())
}

fn tell_one(rt: &impl Wait, alloc: Global, told: &mut String) -> Result<(), Fail> {
    let (reass, mut pass) = Reass::new(alloc, 4, 65)?;
    offer_all(rt, &reass, &mut pass, &[7, 3, 9, 0, 4, 6, 1])?;
    let lists = reass.close(alloc, pass)?;
    put_lists(told, &lists)
}

// The first pass takes the other in.
fn tell_two(rt: &impl Wait, alloc: Global, told: &mut String) -> Result<(), Fail> {
    let (reass, mut pass) = Reass::new(alloc, 4, 2)?;
    let mut other = reass.split(&mut pass);
    offer_all(rt, &reass, &mut pass, &[7, 0])?;
    offer_all(rt, &reass, &mut other, &[3, 9, 1])?;
    offer_all(rt, &reass, &mut pass, &[4, 6])?;
    reass.join(&mut pass, other);
    let lists = reass.close(alloc, pass)?;
    put_lists(told, &lists)
}

// The other takes the first pass in, and offers again.
fn tell_other(rt: &impl Wait, alloc: Global, told: &mut String) -> Result<(), Fail> {
    let (reass, mut pass) = Reass::new(alloc, 4, 2)?;
    offer_all(rt, &reass, &mut pass, &[7, 0])?;
    let mut other = reass.split(&mut pass);
    offer_all(rt, &reass, &mut pass, &[9])?;
    reass.join(&mut other, pass);
    offer_all(rt, &reass, &mut other, &[6, 4, 3, 1])?;
    let lists = reass.close(alloc, other)?;
    put_lists(told, &lists)
}

/// The pieces 1 and 6 are of class 0, 0, 4 and 9 of class 1, 3 of class 2, and 7 of class 3.
const LISTS: &str = "1 6 \n0 4 9 \n3 \n7 \n";

#[test]
fn offers_are_listed_by_class_and_number(rt: HostRuntime) -> Result<(), Fail> {
    for tell in 0..3u32 {
        let mut told = String::new(rt.alloc());
        match tell {
            0 => tell_one(&rt, rt.alloc(), &mut told)?,
            1 => tell_two(&rt, rt.alloc(), &mut told)?,
            _ => tell_other(&rt, rt.alloc(), &mut told)?,
        }
        assert_eq!(rt; told.as_str(), LISTS, "{tell}");
    }
    Ok(())
}
