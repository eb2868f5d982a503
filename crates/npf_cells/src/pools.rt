// Connections and nodes are claimed from their pools, and given back.
ghost use Rattle.std.specs.Prelude.{◌≡◌, ◌-◌, ◌*◌, ◌%◌, ◌^◌, ◌==◌};
ghost use Rattle.std.specs.Int.{bit_at};

use crate::cells::{CellPass, Cells};
use crate::rule::Running;
use crate::told::StepTold;
use atomic_table::Play;
use npf_cells_rule::CellView;
use npf_cells_words::Pool;
use npf_core::Law;
use npf_paths::KeyHash;
use std::marker::{Brand, PhantomData};

pub(crate) struct SweepsPool<L: Law, H: KeyHash, W> {
    law: PhantomData<L>,
    hash: PhantomData<H>,
    aim: PhantomData<W>,
}

impl<L: Law, H: KeyHash, W: StepTold> Play<Running<L::State>, CellView<L::State, L::Arg, L::Reply>>
    for SweepsPool<L, H, W> {
    ghost use Rattle.npf_cells_takes.specs.PoolKinds.{Sweeps};

    ghost then = { Sweeps L.meaning H.digest W.told.layout W.told.pool W.told.word };
}

pub(crate) struct TakesNode<L: Law, H: KeyHash, W> {
    law: PhantomData<L>,
    hash: PhantomData<H>,
    aim: PhantomData<W>,
}

impl<L: Law, H: KeyHash, W: StepTold> Play<Running<L::State>, CellView<L::State, L::Arg, L::Reply>>
    for TakesNode<L, H, W> {
    ghost use Rattle.npf_cells_takes.specs.PoolKinds.{ClaimsNode};

    ghost then = { ClaimsNode L.meaning H.digest W.told.layout W.told.number };
}

pub(crate) struct ReturnsNode<L: Law, H: KeyHash, W> {
    law: PhantomData<L>,
    hash: PhantomData<H>,
    aim: PhantomData<W>,
}

impl<L: Law, H: KeyHash, W: StepTold> Play<Running<L::State>, CellView<L::State, L::Arg, L::Reply>>
    for ReturnsNode<L, H, W> {
    ghost use Rattle.npf_cells_takes.specs.PoolKinds.{GivesNodeBack};

    ghost then = { GivesNodeBack L.meaning H.digest W.told.layout W.told.number };
}

impl<L: Law, H: KeyHash> Cells<L, H> {
    ghost use Rattle.std.specs.Prelude.{◌≡◌, ◌<◌, ◌↔◌, ◌==◌, ◌+◌, ◌/◌, ◌%◌, true, false, ℕ, length, Contains};
    ghost use Rattle.std.specs.Int.{bit_at};
    ghost use Rattle.npf_cells_words.specs.declared.layout.Pool.TheVariants.{Slots, Nodes};
    ghost use Rattle.npf_cells_words.specs.Layout.{pool_at, pool_places, pool_words, place_word};
    ghost use Rattle.npf_cells.specs.Cells.{IsPassIn};
    ghost use Rattle.npf_cells_rule.specs.Passes.{IsProtected};
    ghost use Rattle.npf_cells_rule.specs.Stood.{StoodSo};
    ghost use Rattle.npf_cells_takes.specs.PoolKinds.{NeedsNode, sweeping, claiming_node, giving_back};
    ghost use Rattle.npf_cells_rule.specs.Views.{with_pools};
    ghost use Rattle.npf_cells_takes.specs.SlotKinds.{HasClaimed, HasSeenSlots};

    /// Loads a word of a pool: a bit for each of 64 places, set where it is taken or past the last place. At a word of the slots the pass
    /// then sees all of the history.
    pub fn load_pool(&self, pass: &mut CellPass<L>, pool: Pool, word: u32) -> u64
        requires own { IsPassIn self.now pass.old }
        requires word { word < pool_words (pool_places self.now.table.shared.key pool) }
        requires needs { pool ≡ Nodes → NeedsNode H.digest pass.old.seat.me.0 }
        ensures own { IsPassIn self.now pass.new }
        ensures nodes { pool ≡ Nodes → pass.new.seat.me ≡ with_pools pass.old.seat.me (sweeping (pool_words self.now.table.shared.key.nodes) word pass.old.seat.me.0.pools result) }
        ensures slots { pool ≡ Slots → HasSeenSlots L.meaning self.now.table.shared.key word result pass.old.seat.me pass.new.seat.me }
        ensures stood { StoodSo L.meaning H.digest self.now.table.shared.key pass.old.seat.me.0 (pool_at self.now.table.shared.key pool + word) result }
    {
        self.load_pool_as::<Brand>(pass, pool, word)
    }

    fn load_pool_as<W: StepTold>(&self, pass: &mut CellPass<L>, pool: Pool, word: u32) -> u64
        requires own { IsPassIn self.now pass.old }
        requires word { word < pool_words (pool_places self.now.table.shared.key pool) }
        requires aim { (W.told.layout ≡ self.now.table.shared.key) × (W.told.pool ≡ pool) × (W.told.word ≡ word) }
        ensures own { IsPassIn self.now pass.new }
        ensures nodes { pool ≡ Nodes → pass.new.seat.me ≡ with_pools pass.old.seat.me (sweeping (pool_words self.now.table.shared.key.nodes) word pass.old.seat.me.0.pools result) }
        ensures slots { pool ≡ Slots → HasSeenSlots L.meaning self.now.table.shared.key word result pass.old.seat.me pass.new.seat.me }
        ensures stood { StoodSo L.meaning H.digest self.now.table.shared.key pass.old.seat.me.0 (pool_at self.now.table.shared.key pool + word) result }
    {
        let place = self.layout.pool_place(pool, word);
        self.table
            .shared
            .load::<SweepsPool<L, H, W>>(&mut pass.seat, place)
    }

    /// A word of a pool, as `load_pool` loads it, of which the pass learns nothing: any number is a hint.
    pub fn peek_pool(&self, _pass: &CellPass<L>, pool: Pool, word: u32) -> u64
        requires own { IsPassIn self.now _pass.now }
        requires word { word < pool_words (pool_places self.now.table.shared.key pool) }
    {
        self.table.shared.peek(self.layout.pool_place(pool, word))
    }

    /// Claims a place, unless it is taken. Answers whether it did. A node is then the pass's own. In a slot the pass is then building
    /// its next connection, for the packet n.
    pub fn claim(&self, pass: &mut CellPass<L>, pool: Pool, place: u32, n: u64) -> bool
        requires own { IsPassIn self.now pass.old }
        requires place { place < pool_places self.now.table.shared.key pool }
        requires protected { IsProtected pass.old.seat.me.0.epochs.pin }
        requires needs { pool ≡ Nodes → NeedsNode H.digest pass.old.seat.me.0 }
        ensures own { IsPassIn self.now pass.new }
        ensures slot { pool ≡ Slots → result ≡ true → HasClaimed L.meaning n place pass.old.seat.me pass.new.seat.me }
        ensures node { pool ≡ Nodes → pass.new.seat.me ≡ with_pools pass.old.seat.me (claiming_node place pass.old.seat.me.0.pools pass.new.seat.me.0.pools.found) }
        ensures unowned { pool ≡ Nodes → result ≡ true → ¬ (Contains pass.old.seat.me.0.pools.nodes place) }
        ensures sees { pool ≡ Slots → result ≡ false → HasSeenSlots L.meaning self.now.table.shared.key (place / 64) pass.new.seat.me.0.pools.found pass.old.seat.me pass.new.seat.me }
        ensures loses { pool ≡ Nodes → result ≡ false → pass.new.seat.me ≡ with_pools pass.old.seat.me (record pass.old.seat.me.0.pools { found = pass.new.seat.me.0.pools.found }) }
        ensures stood { StoodSo L.meaning H.digest self.now.table.shared.key pass.old.seat.me.0 (place_word self.now.table.shared.key pool place) pass.new.seat.me.0.pools.found }
        ensures answers { (result ≡ true) ↔ (bit_at pass.new.seat.me.0.pools.found (place % 64) ≡ 0) }
    {
        match pool {
            Pool::Slots => self.claim_slot(pass, place, n),
            Pool::Nodes => self.claim_node(pass, place),
        }
    }

    // Takes a node, unless it is taken. Answers whether it did; the pass didn't own the node then.
    fn claim_node(&self, pass: &mut CellPass<L>, node: u32) -> bool
        requires own { IsPassIn self.now pass.old }
        requires node { node < self.now.table.shared.key.nodes }
        ensures own { IsPassIn self.now pass.new }
        ensures next { pass.new.seat.me ≡ with_pools pass.old.seat.me (claiming_node node pass.old.seat.me.0.pools pass.new.seat.me.0.pools.found) }
        ensures stood { StoodSo L.meaning H.digest self.now.table.shared.key pass.old.seat.me.0 (place_word self.now.table.shared.key Nodes node) pass.new.seat.me.0.pools.found }
        ensures unowned { result ≡ true → ¬ (Contains pass.old.seat.me.0.pools.nodes node) }
        ensures answers { (result ≡ true) ↔ (bit_at pass.new.seat.me.0.pools.found (node % 64) ≡ 0) }
    {
        self.claim_node_as::<Brand>(pass, node)
    }

    fn claim_node_as<W: StepTold>(&self, pass: &mut CellPass<L>, node: u32) -> bool
        requires own { IsPassIn self.now pass.old }
        requires node { node < self.now.table.shared.key.nodes }
        requires aim { (W.told.layout ≡ self.now.table.shared.key) × (W.told.number ≡ node) }
        ensures own { IsPassIn self.now pass.new }
        ensures next { pass.new.seat.me ≡ with_pools pass.old.seat.me (claiming_node node pass.old.seat.me.0.pools pass.new.seat.me.0.pools.found) }
        ensures stood { StoodSo L.meaning H.digest self.now.table.shared.key pass.old.seat.me.0 (place_word self.now.table.shared.key Nodes node) pass.new.seat.me.0.pools.found }
        ensures unowned { result ≡ true → ¬ (Contains pass.old.seat.me.0.pools.nodes node) }
        ensures answers { (result ≡ true) ↔ (bit_at pass.new.seat.me.0.pools.found (node % 64) ≡ 0) }
    {
        let place = self.layout.pool_place(Pool::Nodes, node / 64);
        let found = self
            .table
            .shared
            .fetch_or::<TakesNode<L, H, W>>(&mut pass.seat, place, place_bit(node));
        is_clear(found, node)
    }

    /// Gives a node back that the pass owns.
    pub fn give_back(&self, pass: &mut CellPass<L>, pool: Pool, place: u32)
        requires own { IsPassIn self.now pass.old }
        requires pool { pool ≡ Nodes }
        requires place { place < self.now.table.shared.key.nodes }
        requires owned { Contains pass.old.seat.me.0.pools.nodes place }
        ensures own { IsPassIn self.now pass.new }
        ensures next { pass.new.seat.me ≡ with_pools pass.old.seat.me (giving_back place pass.old.seat.me.0.pools pass.new.seat.me.0.pools.found) }
        ensures stood { StoodSo L.meaning H.digest self.now.table.shared.key pass.old.seat.me.0 (place_word self.now.table.shared.key Nodes place) pass.new.seat.me.0.pools.found }
    {
        self.give_back_as::<Brand>(pass, pool, place);
    }

    fn give_back_as<W: StepTold>(&self, pass: &mut CellPass<L>, pool: Pool, place: u32)
        requires own { IsPassIn self.now pass.old }
        requires pool { pool ≡ Nodes }
        requires place { place < self.now.table.shared.key.nodes }
        requires owned { Contains pass.old.seat.me.0.pools.nodes place }
        requires aim { (W.told.layout ≡ self.now.table.shared.key) × (W.told.number ≡ place) }
        ensures own { IsPassIn self.now pass.new }
        ensures next { pass.new.seat.me ≡ with_pools pass.old.seat.me (giving_back place pass.old.seat.me.0.pools pass.new.seat.me.0.pools.found) }
        ensures stood { StoodSo L.meaning H.digest self.now.table.shared.key pass.old.seat.me.0 (place_word self.now.table.shared.key Nodes place) pass.new.seat.me.0.pools.found }
    {
        let word = self.layout.pool_place(pool, place / 64);
        self.table
            .shared
            .fetch_and::<ReturnsNode<L, H, W>>(&mut pass.seat, word, !place_bit(place));
    }
}

// The bit of a place in its word.
pub(crate) fn place_bit(place: u32) -> u64
    ensures { result ≡ 1 * 2 ^ (place % 64) % 2 ^ 64 }
{
    1 << (place % 64)
}

// Whether the bit of a place is clear in its word.
pub(crate) fn is_clear(word: u64, place: u32) -> bool
    ensures { result ≡ (bit_at word (place % 64) == 0) }
{
    (word >> (place % 64)) & 1 == 0
}
