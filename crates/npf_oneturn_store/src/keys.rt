// Who holds which key.
//
// A bucket, of which there is one for two slots, names 16 places: at two keys a slot that is four keys a bucket where the table is full. A name
// whose place has no key of the bucket is written over; a 17th key sets the bucket's flag for good, and a key that the bucket doesn't name is
// then looked for at all places. So nothing but time rests on how keys fall. The buckets, of which only the room is taken at first, are
// written at the first key, so that a run of stateless rules alone pays for none of them.
ghost use Rattle.std.specs.Prelude.{◌≡◌, false, true, ◌≢◌, ℕ, ◌<◌, ◌≤◌, ◌*◌, ◌+◌, ◌↔◌, length, vec_len, vec_capacity, get_or, Option, Some, None, IfOk, IfSome, IfNone, IsTrue};
ghost use Rattle.npf_core.specs.NextState.{is_found};
ghost use Rattle.npf_types.specs.declared.key.Key.{Key};
ghost use Rattle.npf_oneturn_store.specs.Hash.{bucket_of};
ghost use Rattle.npf_oneturn_store.specs.Places.{AreKept, AreSized, holder_among, key_place, way_number};

use crate::hash::bucket_of;
use npf_core::{Found, Holding};
use npf_types::{Key, NoMemory, Way};
use std::alloc::Global;

/// How many places a bucket names.
const WIDTH: usize = 16;

/// The keys that connections hold.
#[derive(Drop)]
pub(crate) struct Keys {
    // Whether a key was ever given. Cells and flags are written from then on.
    used: bool,
    buckets: usize,
    // What each connection holds of each way, at 3 times its slot and the way's number. Only slots that were claimed have places.
    holdings: Vec<Option<Holding>>,
    // The places that each bucket names. Its keys stand there, and others' may, too. Before the first key they have their room, but
    // aren't written: a run without connections pays for none of it.
    cells: Vec<u32>,
    // Of each bucket, whether it had once more keys than it can name. These may stand at any place. Written as the cells are.
    spilled: Vec<bool>,
    pub ghost sized: { AreSized used buckets cells.items spilled.items },
    pub ghost room_cells: { buckets * 16 ≤ vec_capacity cells },
    pub ghost room_flags: { buckets ≤ vec_capacity spilled },
    pub ghost kept: { AreKept buckets holdings.items cells.items spilled.items },
    pub ghost unused: { used ≡ false → (key : Key) → holder_among holdings.items key ≡ None },
}

impl Keys {
    ghost use Rattle.npf_core.specs.NextState.{given_up};
    ghost use Rattle.npf_oneturn_store.specs.Keys.{Reholds, Grows, keeper_of};
    ghost use Rattle.npf_oneturn_store.specs.Places.{IsStale, IsUnnamed, found_at, standing};

    /// Room for the keys of so many slots, of which none has places yet.
    pub(crate) fn new(alloc: Global, slots: u32) -> Result<Keys, NoMemory>
        ensures unheld { IfOk result (λ keys. (key : Key) → keeper_of keys key ≡ None) }
        ensures empty { IfOk result (λ keys. length keys.holdings.items ≡ 0) }
        ensures room { IfOk result (λ keys. 3 * slots ≤ vec_capacity keys.holdings) }
    {
        let buckets = (slots / 2).max(1) as usize;
        Ok(Keys {
            used: false,
            buckets,
            holdings: Vec::with_capacity(alloc, 3 * slots as usize)?,
            cells: Vec::with_capacity(alloc, buckets * WIDTH)?,
            spilled: Vec::with_capacity(alloc, buckets)?,
        })
    }

    /// Places for the keys of the next slot, which holds none.
    pub(crate) fn add_slot(&mut self)
        requires { length self.old.holdings.items + 3 ≤ vec_capacity self.old.holdings }
        ensures { Grows 3 self.old self.new }
    {
        self.add_place();
        self.add_place();
        self.add_place();
    }

    fn add_place(&mut self)
        requires { length self.old.holdings.items < vec_capacity self.old.holdings }
        ensures { Grows 1 self.old self.new }
    {
        self.holdings.push_reserved(None);
    }

    /// The key's bucket.
    #[inline(always)]
    pub(crate) fn bucket(&self, key: Key) -> usize
        ensures value { result ≡ bucket_of self.now.buckets key }
        ensures within { result < self.now.buckets }
    {
        bucket_of(self.buckets, key)
    }

    /// The key's holder. Before the first key no bucket is asked for.
    #[inline(always)]
    pub(crate) fn find(&self, key: Key) -> Option<Found>
        ensures { result ≡ keeper_of self.now key }
    {
        if !self.used {
            return None;
        }
        self.search(self.bucket(key), key)
    }

    /// The key's holder, by the key's bucket.
    #[inline(always)]
    pub(crate) fn search(&self, bucket: usize, key: Key) -> Option<Found>
        requires bucket { bucket ≡ bucket_of self.now.buckets key }
        requires exists { bucket < self.now.buckets }
        ensures { result ≡ keeper_of self.now key }
    {
        if !self.used {
            return None;
        }
        if let Some(found) = self.named(bucket, key) {
            return Some(found);
        }
        if self.spilled[bucket] {
            return self.anywhere(key);
        }
        None
    }

    #[inline(always)]
    fn standing(&self, place: usize) -> Option<Holding>
        ensures { result ≡ standing self.now.holdings.items place }
    {
        match self.holdings.get(place) {
            Some(holding) => *holding,
            None => None,
        }
    }

    #[inline(always)]
    fn found(&self, place: usize, key: Key) -> Option<Found>
        ensures { result ≡ found_at self.now.holdings.items key place }
    {
        match self.standing(place) {
            Some(holding) if holding.key == key => Some(holding.found),
            _ => None,
        }
    }

    // The key's holder, where the bucket names its place.
    #[inline(always)]
    fn named(&self, bucket: usize, key: Key) -> Option<Found>
        requires exists { bucket < self.now.buckets }
        requires written { self.now.used ≡ true }
        ensures some { IfSome result (λ found. keeper_of self.now key ≡ Some found) }
        ensures none { IfNone result ((i : ℕ) → i < 16 → found_at self.now.holdings.items key (get_or self.now.cells.items (bucket * 16 + i) 0) ≡ None) }
    {
        for i in 0..WIDTH {
            let place = self.cells[bucket * WIDTH + i] as usize;
            if let Some(found) = self.found(place, key) {
                return Some(found);
            }
        }
        None
    }

    fn anywhere(&self, key: Key) -> Option<Found>
        ensures { result ≡ keeper_of self.now key }
    {
        for place in 0..self.holdings.len() {
            if let Some(found) = self.found(place, key) {
                return Some(found);
            }
        }
        None
    }

    fn is_stale(&self, bucket: usize, place: usize) -> bool
        ensures { IsTrue result ↔ IsStale self.now.buckets self.now.holdings.items bucket place }
    {
        match self.standing(place) {
            Some(holding) => self.bucket(holding.key) != bucket,
            None => true,
        }
    }

    // A cell of the bucket that none of the bucket's keys needs.
    fn stale_cell(&self, bucket: usize) -> Option<usize>
        requires exists { bucket < self.now.buckets }
        requires written { self.now.used ≡ true }
        ensures within { IfSome result (λ cell. (bucket * 16 ≤ cell) × (cell < bucket * 16 + 16)) }
        ensures stale { IfSome result (λ cell. IsStale self.now.buckets self.now.holdings.items bucket (get_or self.now.cells.items cell 0)) }
    {
        for cell in bucket * WIDTH..bucket * WIDTH + WIDTH {
            if self.is_stale(bucket, self.cells[cell] as usize) {
                return Some(cell);
            }
        }
        None
    }

    // Has cells and flags written, where no key was ever given. No place has a key then, so they may say anything.
    fn write_buckets(&mut self)
        ensures written { self.new.used ≡ true }
        ensures holdings { self.new.holdings ≡ self.old.holdings }
        ensures buckets { self.new.buckets ≡ self.old.buckets }
    {
        if self.used {
            return;
        }
        fill(&mut self.cells, u32::MAX, self.buckets * WIDTH);
        fill(&mut self.spilled, false, self.buckets);
        self.used = true;
    }

    // Has the bucket name the place, or else be spilled.
    fn name(&mut self, bucket: usize, place: usize)
        requires exists { bucket < self.old.buckets }
        requires written { self.old.used ≡ true }
        ensures named { get_or self.new.spilled.items bucket false ≡ false → ¬ IsUnnamed self.new.cells.items bucket place }
        ensures holdings { self.new.holdings ≡ self.old.holdings }
        ensures buckets { self.new.buckets ≡ self.old.buckets }
        ensures written { self.new.used ≡ true }
    {
        let (Some(cell), Ok(name)) = (self.stale_cell(bucket), u32::try_from(place)) else {
            self.spilled[bucket] = true;
            return;
        };
        self.cells[cell] = name;
    }

    /// Gives a key that has no holder to this one, by the key's bucket.
    pub(crate) fn give(&mut self, bucket: usize, key: Key, found: Found)
        requires bucket { bucket ≡ bucket_of self.old.buckets key }
        requires exists { bucket < self.old.buckets }
        requires within { key_place found < length self.old.holdings.items }
        requires none { standing self.old.holdings.items (key_place found) ≡ None }
        requires unheld { keeper_of self.old key ≡ None }
        ensures { Reholds self.old self.new key (Some found) }
    {
        let place = key_place(found);
        self.write_buckets();
        self.name(bucket, place);
        self.holdings[place] = Some(Holding { key, found });
    }

    // What stands at the connection's place of that way, if the connection holds it.
    fn holding(&self, found: Found) -> Option<Holding>
        ensures some { IfSome result (λ holding. standing self.now.holdings.items (key_place found) ≡ Some holding) }
        ensures own { IfSome result (λ holding. holding.found ≡ found) }
        ensures none { IfNone result ((key : Key) → keeper_of self.now key ≢ Some found) }
    {
        match self.standing(key_place(found)) {
            Some(holding) if is_found(holding.found, found) => Some(holding),
            _ => None,
        }
    }

    /// The key that the connection holds that way.
    pub(crate) fn held(&self, found: Found) -> Option<Key>
        ensures some { IfSome result (λ key. keeper_of self.now key ≡ Some found) }
        ensures none { IfNone result ((key : Key) → keeper_of self.now key ≢ Some found) }
    {
        match self.holding(found) {
            Some(holding) => Some(holding.key),
            None => None,
        }
    }

    /// Takes back the key that the connection holds that way, if there is one.
    pub(crate) fn take_back(&mut self, found: Found)
        ensures holder { (key : Key) → keeper_of self.new key ≡ given_up (keeper_of self.old key) found }
        ensures sized { length self.new.holdings.items ≡ length self.old.holdings.items }
        ensures room { vec_capacity self.new.holdings ≡ vec_capacity self.old.holdings }
    {
        let Some(holding) = self.holding(found) else {
            return;
        };
        self.holdings[key_place(holding.found)] = None;
    }
}

// So many items more, each this one, where there is room for them.
fn fill<T: Copy>(items: &mut Vec<T>, item: T, count: usize)
    requires { vec_len items.old + count ≤ vec_capacity items.old }
    ensures sized { vec_len items.new ≡ vec_len items.old + count }
    ensures room { vec_capacity items.new ≡ vec_capacity items.old }
{
    for _ in 0..count {
        items.push_reserved(item);
    }
}

fn is_found(found: Found, other: Found) -> bool
    ensures { result ≡ is_found found other }
{
    found == other
}

fn way_number(way: Way) -> usize
    ensures { result ≡ way_number way }
{
    match way {
        Way::Forward => 0,
        Way::Backward => 1,
        Way::Port => 2,
    }
}

fn key_place(found: Found) -> usize
    ensures { result ≡ key_place found }
{
    3 * found.id.slot as usize + way_number(found.way)
}
