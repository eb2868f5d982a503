// The table's words, and the calls that make it and part it among passes.
ghost use Rattle.std.specs.Prelude.{◌≡◌, ◌≤◌, ◌<◌, ◌^◌, ◌+◌, ◌-◌, ◌++◌, ℕ, IfOk, None, length, replicate, slice_index, take, drop};
ghost use Rattle.npf_connections.specs.Pass.{all_places};
ghost use Rattle.npf_cells_words.specs.Layout.{pool_words, word_count};
ghost use Rattle.npf_cells_words.specs.Opening.{opening_words, with_past};
ghost use Rattle.npf_cells_rule.specs.Readers.{reader_in_turn, readers_in_turn};

use crate::hints::Hints;
use crate::kinds::{
    AdvancesEpoch, LoadsEpoch, PinsReader, ProtectsReader, ScansReader, UnpinsReader,
};
use crate::moves::{GetsBorn, Gives, Reads, TakesIn};
use crate::rule::CellsRule;
use crate::told::StepTold;
use arrayvec::ArrayVec;
use atomic_table::{Refused, Seat, Table};
use bumpalo::Bump;
use bumpalo::collections::into_bump_slice;
use npf_cells_rule::CellView;
use npf_cells_words::{EPOCH, FIRST_EPOCH, IDLE, Layout, Pool, READERS, reader_place};
use npf_core::Law;
use npf_paths::KeyHash;
use npf_types::NoMemory;
use std::alloc::Global;
use std::marker::Brand;

/// A table of connections without locks.
#[derive(Drop)]
pub struct Cells<L: Law, H: KeyHash> {
    pub(crate) table: Table<
        Option<(L::State, u64)>,
        CellView<L::State, L::Arg, L::Reply>,
        Layout,
        CellsRule<L, H>,
        Global,
    >,
    pub(crate) layout: Layout,
    ghost laid: { table.shared.key ≡ layout },
    ghost narrow: { (layout.slots < 2 ^ 32) × (layout.nodes < 2 ^ 32) },
}

/// A pass of such a table.
#[derive(Drop)]
pub struct CellPass<L: Law> {
    pub(crate) seat: Seat<Option<(L::State, u64)>, CellView<L::State, L::Arg, L::Reply>>,
    /// Its reader places: the first is the one that it pins by.
    readers: ArrayVec<u32, 66>,
    hints: Hints,
}

impl<L: Law> CellPass<L> {
    /// In which word of the pool to begin a search for a free place. Any number is a hint.
    pub fn hint(&self, pool: Pool) -> u32 {
        match pool {
            Pool::Slots => self.hints.slots,
            Pool::Nodes => self.hints.nodes,
        }
    }

    /// How many reader places it owns: all 66 where no other pass owns any.
    pub fn places(&self) -> usize
        ensures { result ≡ length self.now.readers.items }
    {
        self.readers.len()
    }

    /// Begins the next search in that pool in this word.
    pub fn set_hint(&mut self, pool: Pool, word: u32)
        ensures seat { self.new.seat ≡ self.old.seat }
        ensures readers { self.new.readers ≡ self.old.readers }
    {
        match pool {
            Pool::Slots => self.hints.slots = word,
            Pool::Nodes => self.hints.nodes = word,
        }
    }

    /// The latest state, 2^63 and an epoch, of the nodes that the pass and those that it took in let go and that may not have come back; 0
    /// where there is none. Any number is a hint.
    pub fn left(&self) -> u64 {
        self.hints.left
    }

    /// Remembers the state of the node that was let go last, or 0 once all came back.
    pub fn set_left(&mut self, state: u64)
        ensures seat { self.new.seat ≡ self.old.seat }
        ensures readers { self.new.readers ≡ self.old.readers }
    {
        self.hints.left = state;
    }
}

impl<L: Law, H: KeyHash> Cells<L, H> {
    ghost use Rattle.std.specs.Prelude.{◌≡◌, ◌≤◌, ◌<◌, ◌+◌, ◌^◌, ◌↔◌, ℕ, true, None, [], IfOk, if◌then◌else◌};
    ghost use Rattle.npf_connections.specs.Joining.{IsSplit, IsJoined};
    ghost use Rattle.npf_connections.specs.Pass.{IsPass, IsFirstPass, all_places};
    ghost use Rattle.npf_connections.specs.Worn.{last_epoch};
    ghost use Rattle.npf_cells_pins.specs.declared.pin.Pin.TheVariants.{Idle, Pinned};
    ghost use Rattle.npf_cells_pins.specs.Epochs.{idle_side, HasScannedAll};
    ghost use Rattle.npf_cells_lives.specs.Pools.{empty_handed};
    ghost use Rattle.npf_cells_leaves.specs.Trie.{unread_side};
    ghost use Rattle.npf_cells_pins.specs.Pinning.{HasLoaded, IsMet, loading, pinning, protecting, scanning, advancing, joined_epochs};
    ghost use Rattle.npf_cells_rule.specs.Views.{with_epochs};
    ghost use Rattle.npf_cells_moves.specs.Kinds.{IsSole, unpinned};
    ghost use Rattle.npf_cells_moves.specs.Moves.{joined_pools, joined_trie};
    ghost use Rattle.npf_cells.specs.Cells.{IsPassIn};
    ghost use Rattle.npf_cells_rule.specs.Passes.{cell_pass};
    ghost use Rattle.npf_cells_rule.specs.Stood.{StoodSo};
    ghost use Rattle.npf_cells_words.specs.Layout.{reader_at};

    /// A table of so many slots and nodes, and its first pass. All the memory that it ever has is taken here.
    pub fn new(
        alloc: Global,
        slots: u32,
        nodes: u32,
    ) -> Result<(Cells<L, H>, CellPass<L>), NoMemory>
        requires slots { (1 ≤ slots) × (slots ≤ 65536) }
        requires nodes { (16 ≤ nodes) × (nodes ≤ 262144) }
        ensures layout { IfOk result (λ made. made.0.table.shared.key ≡ record { slots = slots; nodes = nodes }) }
        ensures own { IfOk result (λ made. IsPassIn made.0 made.1) }
        ensures first { IfOk result (λ made. IsFirstPass slots (cell_pass made.1.seat.me.0)) }
        ensures legal { IfOk result (λ made. IsPass L.meaning (cell_pass made.1.seat.me.0)) }
        ensures idle { IfOk result (λ made. made.1.seat.me.0.epochs.pin ≡ Idle) }
        ensures empty { IfOk result (λ made. made.1.seat.me.0.pools ≡ empty_handed) }
        ensures unread { IfOk result (λ made. made.1.seat.me.0.trie ≡ unread_side) }
        ensures turnless { IfOk result (λ made. made.1.seat.me.0.turn ≡ None) }
    {
        let layout = Layout { slots, nodes };
        let arena = Bump::new(alloc);
        let words = first_words(&arena, layout)?;
        let homes = vacant_homes::<L::State>(alloc, slots)?;
        match Table::new(alloc, words, homes, &layout) {
            Ok((table, seat)) => {
                let cells = Cells { table, layout };
                let readers = all_readers();
                let hints = Hints::of_reader(layout, 0);
                Ok((
                    cells,
                    CellPass {
                        seat,
                        readers,
                        hints,
                    },
                ))
            }
            Err(Refused { .. }) => Err(NoMemory),
        }
    }

    /// How many slots and nodes the table has.
    pub fn layout(&self) -> Layout
        ensures { result ≡ self.now.table.shared.key }
    {
        self.layout
    }

    /// A pass gives up one of its reader places to a new one, which has seen what it has. All else that it knows and owns stays its own.
    pub fn split(&self, pass: &mut CellPass<L>) -> CellPass<L>
        requires own { IsPassIn self.now pass.old }
        requires out { pass.old.seat.me.0.epochs.pin ≡ Idle }
        requires places { 2 ≤ (cell_pass pass.old.seat.me.0).places }
        ensures own { IsPassIn self.now pass.new }
        ensures given { IsPassIn self.now result }
        ensures splits { IsSplit (cell_pass pass.old.seat.me.0) (cell_pass pass.new.seat.me.0) (cell_pass result.seat.me.0) }
        ensures given_idle { result.seat.me.0.epochs.pin ≡ Idle }
        ensures given_unread { result.seat.me.0.epochs ≡ idle_side }
        ensures given_empty { result.seat.me.0.pools ≡ empty_handed }
        ensures given_nothing { result.seat.me.0.trie ≡ unread_side }
        ensures idle { pass.new.seat.me.0.epochs.pin ≡ Idle }
        ensures pools { pass.new.seat.me.0.pools ≡ pass.old.seat.me.0.pools }
        ensures epochs { pass.new.seat.me.0.epochs ≡ pass.old.seat.me.0.epochs }
        ensures trie { pass.new.seat.me.0.trie ≡ pass.old.seat.me.0.trie }
        ensures given_turnless { result.seat.me.0.turn ≡ None }
        ensures turn { pass.new.seat.me.0.turn ≡ pass.old.seat.me.0.turn }
        ensures given_legal { IsPass L.meaning (cell_pass result.seat.me.0) }
    {
        let readers = give_last(&mut pass.readers);
        let mut seat = self.table.shared.split_seat::<Gives>(&mut pass.seat);
        self.table.shared.load::<GetsBorn<L>>(&mut seat, EPOCH);
        let hints = Hints::of_reader(self.layout, readers[0]);
        CellPass {
            seat,
            readers,
            hints,
        }
    }

    /// A pass takes another in, with its reader places, and sees what either has seen. Its counts become the sums of both.
    pub fn join(&self, pass: &mut CellPass<L>, other: CellPass<L>)
        requires own { IsPassIn self.now pass.old }
        requires other_own { IsPassIn self.now other }
        requires out { pass.old.seat.me.0.epochs.pin ≡ Idle }
        requires other_out { other.seat.me.0.epochs.pin ≡ Idle }
        requires done { pass.old.seat.me.0.pools.builds ≡ [] }
        requires other_done { other.seat.me.0.pools.builds ≡ [] }
        requires other_nodes { other.seat.me.0.pools.nodes ≡ [] }
        requires other_kills { other.seat.me.0.pools.kills ≡ [] }
        requires other_reclaims { other.seat.me.0.pools.reclaims ≡ [] }
        requires other_cleared { other.seat.me.0.pools.cleared ≡ [] }
        requires other_turn { other.seat.me.0.turn ≡ None }
        ensures own { IsPassIn self.now pass.new }
        ensures idle { pass.new.seat.me.0.epochs.pin ≡ Idle }
        ensures pools { pass.new.seat.me.0.pools ≡ joined_pools pass.old.seat.me.0.pools other.seat.me.0.pools }
        ensures epochs { pass.new.seat.me.0.epochs ≡ joined_epochs pass.old.seat.me.0.epochs other.seat.me.0.epochs }
        ensures trie { pass.new.seat.me.0.trie ≡ joined_trie pass.old.seat.me.0.trie other.seat.me.0.trie }
        ensures turn { pass.new.seat.me.0.turn ≡ pass.old.seat.me.0.turn }
        ensures joins { IsJoined (cell_pass pass.old.seat.me.0) (cell_pass other.seat.me.0) (cell_pass pass.new.seat.me.0) }
        ensures legal { IsPass L.meaning (cell_pass pass.new.seat.me.0) }
    {
        let CellPass {
            seat,
            readers,
            hints,
        } = other;
        self.table.shared.join_seat::<TakesIn>(&mut pass.seat, seat);
        self.table.shared.load::<Reads<L>>(&mut pass.seat, EPOCH);
        add_all(&mut pass.readers, &readers);
        pass.hints.left = pass.hints.left.max(hints.left);
    }

    /// Loads the epoch, and begins a new scan of the readers. It isn't before any with which the pass let a connection go.
    pub fn load_epoch(&self, pass: &mut CellPass<L>) -> u64
        requires own { IsPassIn self.now pass.old }
        ensures own { IsPassIn self.now pass.new }
        ensures met { IsMet pass.old.seat.me.0.epochs result }
        ensures dated { pass.old.seat.me.0.pools.dated ≤ result }
        ensures sole { IsSole pass.old.seat.me.0 result }
        ensures next { pass.new.seat.me ≡ with_epochs pass.old.seat.me (loading pass.old.seat.me.0.epochs result) }
    {
        self.table.shared.load::<LoadsEpoch>(&mut pass.seat, EPOCH)
    }

    /// Pins the epoch that was loaded last. What is protected is fixed only by `protect`.
    pub fn pin(&self, pass: &mut CellPass<L>, epoch: u64)
        requires own { IsPassIn self.now pass.old }
        requires idle { pass.old.seat.me.0.epochs.pin ≡ Idle }
        requires loaded { HasLoaded pass.old.seat.me.0.epochs epoch }
        ensures own { IsPassIn self.now pass.new }
        ensures next { pass.new.seat.me ≡ with_epochs pass.old.seat.me (pinning pass.old.seat.me.0.epochs epoch) }
    {
        let place = reader_place(pass.readers[0]);
        self.table
            .shared
            .store::<PinsReader>(&mut pass.seat, place, epoch + 1);
    }

    /// Loads the epoch again: until `unpin` it is at most one more than the answer.
    pub fn protect(&self, pass: &mut CellPass<L>) -> u64
        requires own { IsPassIn self.now pass.old }
        requires pinned { (epoch : ℕ) × (pass.old.seat.me.0.epochs.pin ≡ Pinned epoch) }
        ensures own { IsPassIn self.now pass.new }
        ensures met { IsMet pass.old.seat.me.0.epochs result }
        ensures sole { IsSole pass.old.seat.me.0 result }
        ensures next { pass.new.seat.me ≡ with_epochs pass.old.seat.me (protecting pass.old.seat.me.0.epochs result) }
    {
        self.table
            .shared
            .load::<ProtectsReader>(&mut pass.seat, EPOCH)
    }

    /// Ends what was pinned, and with it what the pass read in this stay.
    pub fn unpin(&self, pass: &mut CellPass<L>)
        requires own { IsPassIn self.now pass.old }
        requires pinned { ¬ (pass.old.seat.me.0.epochs.pin ≡ Idle) }
        requires unlocked { pass.old.seat.me.0.trie.locks ≡ [] }
        ensures own { IsPassIn self.now pass.new }
        ensures next { pass.new.seat.me ≡ unpinned pass.old.seat.me }
    {
        let reader = pass.readers[0];
        self.table
            .shared
            .store::<UnpinsReader>(&mut pass.seat, reader_place(reader), IDLE);
    }

    /// Loads a reader word: 0 where it is idle, otherwise the pinned epoch and one.
    pub fn scan_reader(&self, pass: &mut CellPass<L>, reader: u32) -> u64
        requires own { IsPassIn self.now pass.old }
        requires reader { reader < all_places }
        ensures own { IsPassIn self.now pass.new }
        ensures next { pass.new.seat.me ≡ with_epochs pass.old.seat.me (scanning pass.old.seat.me.0.epochs reader result) }
        ensures stood { StoodSo L.meaning H.digest self.now.table.shared.key pass.old.seat.me.0 (reader_at reader) result }
    {
        self.scan_reader_as::<Brand>(pass, reader)
    }

    fn scan_reader_as<W: StepTold>(&self, pass: &mut CellPass<L>, reader: u32) -> u64
        requires own { IsPassIn self.now pass.old }
        requires reader { reader < all_places }
        requires aim { W.told.layout ≡ self.now.table.shared.key }
        ensures own { IsPassIn self.now pass.new }
        ensures next { pass.new.seat.me ≡ with_epochs pass.old.seat.me (scanning pass.old.seat.me.0.epochs reader result) }
        ensures stood { StoodSo L.meaning H.digest self.now.table.shared.key pass.old.seat.me.0 (reader_at reader) result }
    {
        self.table
            .shared
            .load::<ScansReader<L, H, W>>(&mut pass.seat, reader_place(reader))
    }

    /// Raises the epoch by one, unless it is another by now. Answers whether it did.
    pub fn advance(&self, pass: &mut CellPass<L>, epoch: u64) -> bool
        requires own { IsPassIn self.now pass.old }
        requires loaded { HasLoaded pass.old.seat.me.0.epochs epoch }
        requires below { epoch < last_epoch }
        requires scanned { HasScannedAll pass.old.seat.me.0.epochs }
        ensures own { IsPassIn self.now pass.new }
        ensures met { IsMet pass.old.seat.me.0.epochs pass.new.seat.me.0.epochs.met }
        ensures sole { IsSole pass.old.seat.me.0 pass.new.seat.me.0.epochs.met }
        ensures next { pass.new.seat.me ≡ with_epochs pass.old.seat.me (advancing pass.old.seat.me.0.epochs pass.new.seat.me.0.epochs.met) }
        ensures raises { pass.new.seat.me.0.epochs.raises ≡ pass.old.seat.me.0.epochs.raises + (if result then 1 else 0) }
        ensures moved { (result ≡ true) ↔ (pass.new.seat.me.0.epochs.met ≡ epoch) }
    {
        let found = self
            .table
            .shared
            .compare_exchange::<AdvancesEpoch>(&mut pass.seat, EPOCH, epoch, epoch + 1);
        found == epoch
    }
}

// The words of a new table: but for the epoch and the bits past each pool's last place, all are 0. They stand in an arena, which lets
// go of all at once: there are millions, and one by one takes an unproved build a second.
fn first_words<'a>(arena: &'a Bump, layout: Layout) -> Result<&'a [u64], NoMemory>
    ensures { IfOk result (λ words. words.now ≡ opening_words layout) }
{
    let mut words = zeros(arena, layout.words())?;
    words[EPOCH] = FIRST_EPOCH;
    set_past(&mut words, layout.pool_place(Pool::Slots, 0), layout.slots);
    set_past(&mut words, layout.pool_place(Pool::Nodes, 0), layout.nodes);
    Ok(into_bump_slice(words))
}

// So many words, all of them 0, block by block.
fn zeros<'a>(arena: &'a Bump, count: usize) -> Result<Vec<u64, &'a Bump>, NoMemory>
    ensures { IfOk result (λ words. words.items ≡ replicate count 0) }
{
    let block = [0; 512];
    let mut words = Vec::with_capacity(arena, count)?;
    while words.len() < count {
        let more = (count - words.len()).min(block.len());
        words.extend_from_slice(zeros_of(&block, more))?;
    }
    Ok(words)
}

// So many words of a block that has 0 alone.
fn zeros_of(block: &[u64], count: usize) -> &[u64]
    requires zeros { block.now ≡ replicate (length block.now) 0 }
    requires fits { count ≤ length block.now }
    ensures { result.now ≡ replicate count 0 }
{
    &block[..count]
}

// The bits past the last of so many places are set, where their words begin there.
fn set_past(words: &mut [u64], at: usize, places: u32)
    requires { at + pool_words places ≤ length words.old }
    ensures { words.new ≡ with_past at places words.old }
{
    if places % 64 != 0 {
        words[at + places as usize / 64] = u64::MAX << (places % 64);
    }
}

// The slots of a new table. There is room for twice as many, which is never touched: a block of more than 32 MB goes back to the system
// once it is let go, where after a smaller one the C library keeps for itself what is let go later.
fn vacant_homes<S: Copy>(alloc: Global, slots: u32) -> Result<Vec<Option<(S, u64)>>, NoMemory>
    ensures { IfOk result (λ homes. homes.items ≡ replicate slots None) }
{
    let mut homes = Vec::with_capacity(alloc, 2 * slots as usize)?;
    homes.resize(slots as usize, None)?;
    Ok(homes)
}

// Each reader place, in the order in which the first pass has them.
fn all_readers() -> ArrayVec<u32, 66>
    ensures { result.items ≡ readers_in_turn }
{
    let mut readers = ArrayVec::new();
    for position in 0..READERS {
        readers.push(reader_in_turn(position));
    }
    readers
}

// The reader place at a position: six rows of eleven, column after column, so that neighbours lie in different cache lines.
fn reader_in_turn(position: u32) -> u32
    requires { position < all_places }
    ensures { result ≡ reader_in_turn position }
{
    (5 - position % 6) * 11 + (position / 6 + 10) % 11
}

// The last of the reader places is given up.
fn give_last(readers: &mut ArrayVec<u32, 66>) -> ArrayVec<u32, 66>
    requires { 1 ≤ length readers.old.items }
    ensures left { readers.new.items ≡ take (length readers.old.items - 1) readers.old.items }
    ensures given { result.items ≡ drop (length readers.old.items - 1) readers.old.items }
{
    let mut given = ArrayVec::new();
    if let Some(reader) = readers.pop() {
        given.push(reader);
    }
    given
}

// Reader places are added behind the others.
fn add_all(readers: &mut ArrayVec<u32, 66>, more: &ArrayVec<u32, 66>)
    requires { length readers.old.items + length more.now.items ≤ 66 }
    ensures { readers.new.items ≡ readers.old.items ++ more.now.items }
{
    match readers.try_extend_from_slice(more.as_slice()) {
        Ok(()) => {}
        Err(_) => {}
    }
}
