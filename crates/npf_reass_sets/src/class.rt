// The decision of a class: the sets of its pieces, key by key.
ghost use Rattle.std.specs.Prelude.{◌≡◌, ◌<◌, true, [], List, All, IfOk, OnOk, IsPermutation, length, map, slice_index_or};
ghost use Rattle.npf_pieces.specs.declared.arrived.Arrived.{Arrived};
ghost use Rattle.npf_pieces.specs.Overlap.{IsTaken};
ghost use Rattle.npf_pieces.specs.Sets.{StandsIn, set_at};
ghost use Rattle.npf_reass_sets.specs.Class.{DecidesClass, IsRunOfKey, same_key};
ghost use Rattle.npf_reass_sets.specs.Found.{HasFound};
ghost use Rattle.npf_reass_sets.specs.Key.{key_numbers};
ghost use Rattle.npf_reass_sets.specs.Order.{AreByPlace, SortsByKey};

use crate::key::key_numbers;
use npf_pieces::{Arrived, SetAt, SetFinder};
use npf_types::NoMemory;
use std::alloc::Global;

/// Pieces of a class, which come in the order of their packets. Once they are decided, those of each key stand side by side, in the
/// order in which they came, and `sets` has their sets.
#[derive(Drop)]
pub struct ClassSets {
    pub arrived: Vec<Arrived>,
    pub sets: Vec<SetAt>,
    /// Whether there was memory for the decision.
    pub decided: bool,
}

impl ClassSets {
    /// A class without pieces.
    pub fn new(alloc: Global) -> ClassSets
        ensures { result.arrived.items ≡ [] }
    {
        ClassSets {
            arrived: Vec::new(alloc),
            sets: Vec::new(alloc),
            decided: false,
        }
    }

    /// Decides what becomes of the pieces, if there is memory for it.
    pub fn decide(&mut self, alloc: Global)
        requires taken { All IsTaken self.old.arrived.items }
        requires order { AreByPlace self.old.arrived.items }
        ensures { self.new.decided ≡ true → DecidesClass self.old.arrived.items self.new }
    {
        self.decided = self.find_sets(alloc).is_ok();
    }

    /// Finds the sets of the pieces.
    fn find_sets(&mut self, alloc: Global) -> Result<(), NoMemory>
        requires taken { All IsTaken self.old.arrived.items }
        requires order { AreByPlace self.old.arrived.items }
        ensures { OnOk result (DecidesClass self.old.arrived.items self.new) }
    {
        sort_by_key(&mut self.arrived);
        self.sets = sets_by_key(alloc, self.arrived.as_slice())?;
        Ok(())
    }
}

/// Brings the pieces of each key side by side, in the order in which they came. Their places tell
/// that order, so it takes no room beside them.
fn sort_by_key(arrived: &mut Vec<Arrived>)
    requires { AreByPlace arrived.old.items }
    ensures same { IsPermutation arrived.old.items arrived.new.items }
    ensures sorts { SortsByKey arrived.old.items arrived.new.items }
{
    arrived.sort_unstable_by_key(
        |arrived: &Arrived|
            ensures { result ≡ (key_numbers arrived.now.piece.key, arrived.now.place) }
        { (key_numbers(&arrived.piece.key), arrived.place) },
    );
}

/// The sets of pieces that are in the order of their keys.
#[tactic(auto, using(crate::proofs::DecideLemmas::found_none))]
fn sets_by_key(alloc: Global, arrived: &[Arrived]) -> Result<Vec<SetAt>, NoMemory>
    requires taken { All IsTaken arrived.now }
    ensures found { IfOk result (λ sets. (old : List Arrived) → SortsByKey old arrived.now
        → HasFound old arrived.now (length arrived.now) (map (set_at arrived.now) sets.items)) }
    ensures places { IfOk result (λ sets. All (StandsIn (length arrived.now)) sets.items) }
{
    let mut sets = Vec::new(alloc);
    if arrived.is_empty() {
        return Ok(sets);
    }
    let mut finder = SetFinder::new(alloc)?;
    let mut from = 0;
    while from < arrived.len() {
        let to = key_end(arrived, from);
        finder.find(arrived, from, to, &mut sets)?;
        from = to;
    }
    Ok(sets)
}

/// The first place behind this one whose piece isn't of the same key.
fn key_end(arrived: &[Arrived], from: usize) -> usize
    requires { from < length arrived.now }
    ensures { IsRunOfKey arrived.now from result }
{
    for to in from + 1..arrived.len() {
        if !is_same_key(arrived, from, to) {
            return to;
        }
    }
    arrived.len()
}

/// Whether the pieces at these places are of one key.
fn is_same_key(arrived: &[Arrived], one: usize, other: usize) -> bool
    requires { (one < length arrived.now) × (other < length arrived.now) }
    ensures { (d : Arrived) → result ≡ same_key (slice_index_or arrived.now one d) (slice_index_or arrived.now other d) }
{
    key_numbers(&arrived[one].piece.key) == key_numbers(&arrived[other].piece.key)
}
