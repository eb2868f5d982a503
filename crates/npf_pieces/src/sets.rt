// The sets that the pieces of one key make, in one pass over them.
ghost use Rattle.std.specs.Prelude.{◌≡◌, ◌≤◌, ◌+◌, ◌<◌, false, List, [], ◌∷◌, ◌++◌, All, IfOk, length, map, slice_range};
ghost use Rattle.std.specs.Prelude.{slice_index_or};
ghost use Rattle.npf_pieces.specs.declared.arrived.Arrived.{Arrived};
ghost use Rattle.npf_pieces.specs.Judged.{EndsJudged, KeepsJudged, pieces_of};
ghost use Rattle.npf_pieces.specs.Overlap.{KnowsSet, IsTaken};
ghost use Rattle.npf_pieces.specs.Sets.{StandsIn, is_late, set_at, sets_from};

use crate::arrived::{Arrived, Ending, SetAt};
use crate::overlap::OpenSet;
use npf_types::NoMemory;
use std::alloc::Global;

/// The sets of the pieces of one key, which are in the order in which they came. Each takes its time once.
pub fn sets_of(alloc: Global, arrived: &[Arrived]) -> Result<Vec<SetAt>, NoMemory>
    requires { All IsTaken arrived.now }
    ensures sets { IfOk result (λ sets. map (set_at arrived.now) sets.items ≡ sets_from [] arrived.now) }
    ensures within { IfOk result (λ sets. All (StandsIn (length arrived.now)) sets.items) }
{
    let mut sets = Vec::new(alloc);
    SetFinder::new(alloc)?.find(arrived, 0, arrived.len(), &mut sets)?;
    Ok(sets)
}

/// Finds the sets of one key after another, in a list where the pieces of each key stand together. It takes memory once.
#[derive(Drop)]
pub struct SetFinder {
    known: OpenSet,
}

impl SetFinder {
    ghost use Rattle.npf_pieces.specs.Judged.{reached};

    /// No piece is judged yet.
    pub fn new(alloc: Global) -> Result<SetFinder, NoMemory>
        ensures { IfOk result (λ made. reached made ≡ 0) }
    {
        Ok(SetFinder {
            known: OpenSet::new(alloc)?,
        })
    }

    /// Adds the sets of the pieces from one place up to another, which are all of one key and stand behind those of the keys
    /// before. Each takes its time once.
    pub fn find(
        &mut self,
        arrived: &[Arrived],
        from: usize,
        to: usize,
        sets: &mut Vec<SetAt>,
    ) -> Result<(), NoMemory>
        requires taken { All IsTaken arrived.now }
        requires order { (reached self.old ≤ from) × (from ≤ to) × (to ≤ length arrived.now) }
        requires within { All (StandsIn (length arrived.now)) sets.old.items }
        ensures found { IfOk result (λ _. map (set_at arrived.now) sets.new.items
            ≡ map (set_at arrived.now) sets.old.items ++ sets_from [] (slice_range arrived.now from to)) }
        ensures within { IfOk result (λ _. All (StandsIn (length arrived.now)) sets.new.items) }
        ensures reached { IfOk result (λ _. reached self.new ≡ to) }
    {
        self.known.restart(from);
        for place in from..to {
            close_late(arrived, &mut self.known, sets)?;
            take(arrived, &mut self.known, sets)?;
        }
        close_last(arrived, &mut self.known, sets)?;
        Ok(())
    }
}

/// Ends the open set, if the piece behind it comes too late for it.
fn close_late(
    arrived: &[Arrived],
    known: &mut OpenSet,
    sets: &mut Vec<SetAt>,
) -> Result<(), NoMemory>
    requires taken { All IsTaken arrived.now }
    requires knows { KnowsSet (pieces_of arrived.now known.old) known.old }
    requires more { known.old.behind < length arrived.now }
    ensures judged { IfOk result (λ _. KeepsJudged arrived.now known.old sets.old.items known.new sets.new.items) }
    ensures place { IfOk result (λ _. known.new.behind ≡ known.old.behind) }
    ensures knows { IfOk result (λ _. KnowsSet (pieces_of arrived.now known.new) known.new) }
    ensures timely { IfOk result (λ _. (d : Arrived) → is_late (pieces_of arrived.now known.new) (slice_index_or arrived.now known.new.behind d) ≡ false) }
{
    if !known.is_late(&arrived[known.behind]) {
        return Ok(());
    }
    close(known, sets, Ending::Unfinished)?;
    Ok(())
}

/// Takes the piece behind the open set, which comes in time for it.
fn take(arrived: &[Arrived], known: &mut OpenSet, sets: &mut Vec<SetAt>) -> Result<(), NoMemory>
    requires taken { All IsTaken arrived.now }
    requires knows { KnowsSet (pieces_of arrived.now known.old) known.old }
    requires more { known.old.behind < length arrived.now }
    requires timely { (d : Arrived) → is_late (pieces_of arrived.now known.old) (slice_index_or arrived.now known.old.behind d) ≡ false }
    ensures judged { IfOk result (λ _. KeepsJudged arrived.now known.old sets.old.items known.new sets.new.items) }
    ensures place { IfOk result (λ _. known.new.behind ≡ known.old.behind + 1) }
{
    let place = known.behind;
    match known.take(&arrived[place]) {
        None => Ok(()),
        Some(ending) => {
            close(known, sets, ending)?;
            Ok(())
        }
    }
}

/// Ends the open set, if it has pieces, where no more come.
fn close_last(
    arrived: &[Arrived],
    known: &mut OpenSet,
    sets: &mut Vec<SetAt>,
) -> Result<(), NoMemory>
    requires inside { known.old.behind ≤ length arrived.now }
    ensures ends { IfOk result (λ _. EndsJudged arrived.now known.old sets.old.items sets.new.items) }
    ensures place { IfOk result (λ _. known.new.behind ≡ known.old.behind) }
{
    if known.first == known.behind {
        return Ok(());
    }
    close(known, sets, Ending::Unfinished)?;
    Ok(())
}

/// Ends the open set so.
fn close(known: &mut OpenSet, sets: &mut Vec<SetAt>, ending: Ending) -> Result<(), NoMemory>
    ensures closed { IfOk result (λ _. sets.new.items ≡ sets.old.items ++ record { first = known.old.first; behind = known.old.behind; ending = ending } ∷ []) }
    ensures none { IfOk result (λ _. KnowsSet [] known.new) }
    ensures first { IfOk result (λ _. known.new.first ≡ known.old.behind) }
    ensures behind { IfOk result (λ _. known.new.behind ≡ known.old.behind) }
{
    let (first, behind) = (known.first, known.behind);
    sets.push(SetAt {
        first,
        behind,
        ending,
    })?;
    known.restart(behind);
    Ok(())
}
