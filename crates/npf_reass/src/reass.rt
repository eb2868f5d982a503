// Fragments are gathered by passes that share the sets.
ghost use Rattle.std.specs.Prelude.{◌≡◌, ◌≤◌, ◌+◌, [], All, IfOk, length, map, vec_capacity};
ghost use Rattle.core.specs.Mem.Slots.{IsFull, slots_items, slots_len};
ghost use Rattle.npf_reass.specs.Listing.{SortsEach};

use crate::class::class_of;
use crate::moves::{GivesPlace, PlaceBorn, ReadsSets, TakesPlaceIn};
use crate::offer::{Gathered, ReassSize};
use crate::rule::GatheringRule;
use crate::turn::{FREE, end, take};
use crate::view::ReassView;
use atomic_table::{Closed, Refused, Seat, Table};
use npf_pieces::Piece;
use npf_types::NoMemory;
use std::alloc::Global;
use std::sync::Wait;

/// Where pieces are gathered.
#[derive(Drop)]
pub struct Reass {
    table: Table<Gathered, ReassView, ReassSize, GatheringRule, Global>,
    size: ReassSize,
    ghost sized: { table.shared.key ≡ size },
}

/// A pass of such an object.
#[derive(Drop)]
pub struct ReassPass {
    seat: Seat<Gathered, ReassView>,
}

impl Reass {
    ghost use Rattle.std.specs.Prelude.{◌≡◌, ◌≤◌, IfOk, IsOk, OnOk, OnErr, Contains, map};
    ghost use Rattle.npf_reass.specs.declared.offer.Offer.{Offer};
    ghost use Rattle.npf_reass.specs.Listing.{ListsClasses};
    ghost use Rattle.npf_reass.specs.Passes.{IsReassPass, passes_of, classes_of, sight};
    ghost use Rattle.npf_reass.specs.Sight.{AddsNothing, AddsOffer, IsFirstSight, IsOwnNumber, SplitsSight, JoinsSight};

    /// An object of so many classes, and its first pass. There may be so many passes of it at one time.
    pub fn new(alloc: Global, classes: u32, passes: u32) -> Result<(Reass, ReassPass), NoMemory>
        requires classes { (1 ≤ classes) × (classes ≤ 4096) }
        requires passes { (1 ≤ passes) × (passes ≤ 65) }
        ensures classes { IfOk result (λ made. classes_of made.0 ≡ classes) }
        ensures passes { IfOk result (λ made. passes_of made.0 ≡ passes) }
        ensures own { IfOk result (λ made. IsReassPass made.0 made.1) }
        ensures first { IfOk result (λ made. IsFirstSight passes (sight made.1)) }
    {
        let size = ReassSize { classes, passes };
        let words = vec![in alloc; FREE; classes as usize]?;
        let slots = empty_slots(alloc, classes)?;
        match Table::new(alloc, words.as_slice(), slots, &size) {
            Ok((table, seat)) => Ok((Reass { table, size }, ReassPass { seat })),
            Err(Refused { .. }) => Err(NoMemory),
        }
    }

    /// A pass gives up one of its places to a new one, which has seen what it has.
    pub fn split(&self, pass: &mut ReassPass) -> ReassPass
        requires own { IsReassPass self.now pass.old }
        requires places { 2 ≤ (sight pass.old).places }
        ensures own { IsReassPass self.now pass.new }
        ensures given { IsReassPass self.now result }
        ensures splits { SplitsSight (sight pass.old) (sight pass.new) (sight result) }
    {
        let mut seat = self.table.shared.split_seat::<GivesPlace>(&mut pass.seat);
        self.table.shared.load::<PlaceBorn>(&mut seat, 0);
        ReassPass { seat }
    }

    /// A pass takes another in, with its places, and sees what either has seen.
    pub fn join(&self, pass: &mut ReassPass, other: ReassPass)
        requires own { IsReassPass self.now pass.old }
        requires other { IsReassPass self.now other }
        ensures own { IsReassPass self.now pass.new }
        ensures joins { JoinsSight (sight pass.old) (sight other) (sight pass.new) }
    {
        let ReassPass { seat } = other;
        self.table
            .shared
            .join_seat::<TakesPlaceIn>(&mut pass.seat, seat);
        self.table.shared.load::<ReadsSets>(&mut pass.seat, 0);
    }

    /// Offers the piece that the packet `n` is.
    pub fn offer(
        &self,
        rt: &impl Wait,
        pass: &mut ReassPass,
        n: u64,
        piece: Piece,
    ) -> Result<(), NoMemory>
        requires own { IsReassPass self.now pass.old }
        ensures own { IsReassPass self.now pass.new }
        ensures offered { OnOk result (AddsOffer (sight pass.old) (sight pass.new) n piece) }
        ensures nothing { OnErr result (AddsNothing (sight pass.old) (sight pass.new)) }
    {
        let class = class_of(self.size.classes, &piece.key);
        take(rt, &self.table.shared, &mut pass.seat, class);
        let slot = pass.seat.slot_mut(&self.table.shared, class as usize);
        match slot.offers.push((n, piece)) {
            Ok(()) => {
                end(&self.table.shared, &mut pass.seat, class, Some((n, piece)));
                Ok(())
            }
            Err(_) => {
                end(&self.table.shared, &mut pass.seat, class, None);
                Err(NoMemory)
            }
        }
    }

    /// What was offered of each class, by rising number.
    pub fn close(self, alloc: Global, pass: ReassPass) -> Result<Vec<Vec<(u64, Piece)>>, NoMemory>
        requires own { IsReassPass self pass }
        requires all { (sight pass).places ≡ passes_of self }
        ensures lists { IfOk result (λ lists. ListsClasses (classes_of self) (sight pass).history (map (λ list. list.items) lists.items)) }
        ensures alone { IsOk result → (offer : Offer) → Contains (sight pass).history offer → IsOwnNumber (sight pass) offer.seat }
    {
        let mut lists = Vec::with_capacity(alloc, self.size.classes as usize)?;
        let Reass { table, size: _ } = self;
        let ReassPass { seat } = pass;
        drain(table.close_with(seat), &mut lists);
        sort_each(lists.as_mut_slice());
        Ok(lists)
    }
}

// The slots of so many classes, without offers.
fn empty_slots(alloc: Global, classes: u32) -> Result<Vec<Gathered>, NoMemory>
    ensures count { IfOk result (λ slots. length slots.items ≡ classes) }
    ensures empty { IfOk result (λ slots. All (λ slot. slot.offers.items ≡ []) slots.items) }
{
    let mut slots = Vec::with_capacity(alloc, classes as usize)?;
    while slots.len() < classes as usize {
        slots.push(Gathered {
            offers: Vec::new(alloc),
        })?;
    }
    Ok(slots)
}

// Takes the offers of each class out of a closed table.
fn drain(mut closed: Closed<Gathered, Global>, lists: &mut Vec<Vec<(u64, Piece)>>)
    requires full { IsFull closed.slots }
    requires none { lists.old.items ≡ [] }
    requires room { slots_len closed.slots ≤ vec_capacity lists.old }
    ensures { lists.new.items ≡ map (λ slot. slot.offers) (slots_items closed.slots) }
{
    for class in 0..closed.slot_count() {
        let Gathered { offers } = closed.take(class);
        lists.push_reserved(offers);
    }
    closed.free();
}

// Puts the offers of each class in the order of their numbers.
fn sort_each(lists: &mut [Vec<(u64, Piece)>])
    ensures { SortsEach (map (λ list. list.items) lists.old) (map (λ list. list.items) lists.new) }
{
    for list in lists.iter_mut() {
        list.as_mut_slice().sort_unstable_by_key(|offer| offer.0);
    }
}
