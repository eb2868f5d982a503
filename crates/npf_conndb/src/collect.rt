// What is dead is freed, slot by slot, and nodes come back.
ghost use Rattle.std.specs.Prelude.{◌≡◌, ◌≢◌, ◌<◌, ◌≤◌, ◌+◌, ◌/◌, ◌%◌, true, false, None, length, slice_index_or};
ghost use Rattle.npf_connections.specs.Worn.{last_epoch};
ghost use Rattle.npf_cells_rule.specs.Views.{with_epochs};
ghost use Rattle.npf_connections.specs.Collecting.{FreesAlone, IsClean};
ghost use Rattle.npf_connections.specs.Pass.{IsPass, all_places};
ghost use Rattle.npf_cells.specs.Cells.{IsPassIn};
ghost use Rattle.npf_cells_pins.specs.declared.pin.Pin.TheVariants.{Idle};
ghost use Rattle.npf_cells_rule.specs.Passes.{cell_pass};
ghost use Rattle.npf_conndb.specs.Between.{IsBetweenCalls, StaysBetween};
ghost use Rattle.npf_conndb.specs.Frees.{CollectsSlot, HasCollected, IsNotedVacant};
ghost use Rattle.npf_conndb.specs.SlotVisit.{HasVisited, TriesSlot, VisitsSlots};

use npf_cells::{CellPass, Cells, Pool, READERS};
use npf_core::{ConnId, Law};
use npf_epoch::{enter, leave, try_advance};
use npf_paths::KeyHash;
use npf_turn::{reclaim, regain};
use std::sync::Wait;

/// The field of the first note among a connection's words.
const FIRST_NOTE: u32 = 18;

/// A note of this and more has an epoch.
const EPOCHS: u64 = 1 << 63;

/// How many words have the bits of the slots, where these are as many as there may be.
const MOST_WORDS: usize = 1024;

/// Raises the epoch, twice where no other pass is left that could hinder it, and visits each slot: it frees the connection there that was let go two
/// epochs before or more. A slot whose turn another pass has is left for the next time. Where a word says that nobody has claimed any of 64 slots, none
/// of them is looked at.
pub(crate) fn collect<L: Law, H: KeyHash>(
    rt: &impl Wait,
    cells: &Cells<L, H>,
    pass: &mut CellPass<L>,
)
    requires own { IsPassIn cells.now pass.old }
    requires legal { IsPass L.meaning (cell_pass pass.old.seat.me.0) }
    requires between { IsBetweenCalls L.meaning pass.old.seat.me.0 }
    requires out { pass.old.seat.me.0.epochs.pin ≡ Idle }
    requires few { cells.now.table.shared.key.slots ≤ 65536 }
    ensures own { IsPassIn cells.now pass.new }
    ensures stays { StaysBetween L.meaning pass.old.seat.me.0 pass.new.seat.me.0 }
    ensures frees { FreesAlone (cell_pass pass.old.seat.me.0) pass.new.seat.me.0.seats.history }
    ensures clean { IsClean L.meaning (cell_pass pass.new.seat.me.0) }
    ensures visits { VisitsSlots L.meaning H.digest cells.now.table.shared.key (λ slot. slot < cells.now.table.shared.key.slots) pass.old.seat.me.0 pass.new.seat.me.0 }
{
    let (epoch, claimed) = claimed_words(cells, pass);
    let slots = cells.layout().slots;
    let mut slot = 0;
    while slot < slots {
        if begins_vacant(&claimed, slot) {
            slot += 64;
            continue;
        }
        collect_slot(cells, pass, slot, epoch);
        slot += 1;
    }
    regain_left(rt, cells, pass);
}

// Gets nodes back, unless the pass knows of none that was let go.
fn regain_left<L: Law, H: KeyHash>(rt: &impl Wait, cells: &Cells<L, H>, pass: &mut CellPass<L>)
    requires own { IsPassIn cells.now pass.old }
    requires legal { IsPass L.meaning (cell_pass pass.old.seat.me.0) }
    requires between { IsBetweenCalls L.meaning pass.old.seat.me.0 }
    requires out { pass.old.seat.me.0.epochs.pin ≡ Idle }
    ensures own { IsPassIn cells.now pass.new }
    ensures stays { StaysBetween L.meaning pass.old.seat.me.0 pass.new.seat.me.0 }
    ensures same { pass.new.seat.me.0.seats ≡ pass.old.seat.me.0.seats }
{
    let left = pass.left();
    if left != 0 {
        regain_nodes(rt, cells, pass, left);
    }
}

// Frees each node that was taken off two epochs before or more, and takes those off in which only such a one hung. It is in a stay for that. Where
// a word of the pool says that nobody has any of 64 nodes, none is looked at.
fn regain_nodes<L: Law, H: KeyHash>(
    rt: &impl Wait,
    cells: &Cells<L, H>,
    pass: &mut CellPass<L>,
    left: u64,
)
    requires own { IsPassIn cells.now pass.old }
    requires legal { IsPass L.meaning (cell_pass pass.old.seat.me.0) }
    requires between { IsBetweenCalls L.meaning pass.old.seat.me.0 }
    requires out { pass.old.seat.me.0.epochs.pin ≡ Idle }
    ensures own { IsPassIn cells.now pass.new }
    ensures stays { StaysBetween L.meaning pass.old.seat.me.0 pass.new.seat.me.0 }
    ensures same { pass.new.seat.me.0.seats ≡ pass.old.seat.me.0.seats }
{
    enter(cells, pass);
    let epoch = cells.load_epoch(pass);
    let nodes = cells.layout().nodes;
    let mut node = 0;
    while node < nodes {
        if begins_unowned(cells, pass, node) {
            node = node.saturating_add(64);
            continue;
        }
        regain(rt, cells, pass, node, epoch);
        node += 1;
    }
    leave(cells, pass);
    forget_left(pass, left, epoch);
}

// Whether the node is the first of 64 of which nobody has any, as a word of the pool says. A node that was let go is somebody's till it has come back.
fn begins_unowned<L: Law, H: KeyHash>(cells: &Cells<L, H>, pass: &CellPass<L>, node: u32) -> bool
    requires own { IsPassIn cells.now pass.now }
    requires exists { node < cells.now.table.shared.key.nodes }
{
    node % 64 == 0 && cells.peek_pool(pass, Pool::Nodes, node / 64) == 0
}

// Forgets that nodes were let go, the last of them with this state, once the pass went over all of them at this epoch: those have come back, if no
// other pass was left that may have had the lock of a place. What the pass took off meanwhile it knows by a later state.
fn forget_left<L: Law>(pass: &mut CellPass<L>, left: u64, epoch: u64)
    ensures seat { pass.new.seat ≡ pass.old.seat }
    ensures readers { pass.new.readers ≡ pass.old.readers }
{
    let was_long_left = left.wrapping_sub(EPOCHS).saturating_add(2) <= epoch;
    if was_long_left && pass.left() == left && pass.places() == READERS as usize {
        pass.set_left(0);
    }
}

// Raises the epoch, and looks which words of the slots have a bit set: answers the epoch, and a flag for each word. What is freed ends what the
// pass adds, so behind it the pass may see no more: it sees before which slots nobody has claimed.
fn claimed_words<L: Law, H: KeyHash>(
    cells: &Cells<L, H>,
    pass: &mut CellPass<L>,
) -> (u64, [bool; MOST_WORDS])
    requires own { IsPassIn cells.now pass.old }
    requires legal { IsPass L.meaning (cell_pass pass.old.seat.me.0) }
    requires between { IsBetweenCalls L.meaning pass.old.seat.me.0 }
    requires out { pass.old.seat.me.0.epochs.pin ≡ Idle }
    requires few { cells.now.table.shared.key.slots ≤ 65536 }
    ensures own { IsPassIn cells.now pass.new }
    ensures collected { HasCollected L.meaning result.0 (IsNotedVacant cells.now.table.shared.key.slots result.1) pass.old.seat.me pass.new.seat.me }
    ensures visited { HasVisited L.meaning H.digest cells.now.table.shared.key (IsNotedVacant cells.now.table.shared.key.slots result.1)
        pass.old.seat.me.0 pass.new.seat.me.0 }
{
    let epoch = raise_epoch(cells, pass);
    let mut claimed = [true; MOST_WORDS];
    for word in 0..cells.layout().pool_words(Pool::Slots) {
        let bits = cells.load_pool(pass, Pool::Slots, word);
        claimed[word as usize] = has_some(bits);
    }
    (epoch, claimed)
}

// Whether the slot is the first of 64 of which the flags say that nobody had claimed any.
fn begins_vacant(claimed: &[bool; MOST_WORDS], slot: u32) -> bool
    requires { slot < 65536 }
    ensures first { result ≡ true → slot % 64 ≡ 0 }
    ensures clear { result ≡ true → slice_index_or claimed.now (slot / 64) true ≡ false }
{
    slot % 64 == 0 && !claimed[slot as usize / 64]
}

// Whether some bit of the word is set.
fn has_some(bits: u64) -> bool
    ensures { result ≡ false → bits ≡ 0 }
{
    bits != 0
}

// Raises the epoch, twice where no other pass is left, and answers the one that it then is.
fn raise_epoch<L: Law, H: KeyHash>(cells: &Cells<L, H>, pass: &mut CellPass<L>) -> u64
    requires own { IsPassIn cells.now pass.old }
    requires out { pass.old.seat.me.0.epochs.pin ≡ Idle }
    ensures own { IsPassIn cells.now pass.new }
    ensures same { pass.new.seat.me ≡ with_epochs pass.old.seat.me pass.new.seat.me.0.epochs }
    ensures out { pass.new.seat.me.0.epochs.pin ≡ Idle }
    ensures loaded { pass.new.seat.me.0.epochs.loaded ≡ result }
    ensures greatest { pass.new.seat.me.0.epochs.greatest ≡ result }
    ensures goes { pass.old.seat.me.0.epochs.greatest ≤ result }
    ensures most { result ≤ last_epoch }
    ensures later { length pass.old.seat.me.0.seats.readers ≡ all_places → result ≢ last_epoch → pass.old.seat.me.0.pools.dated + 2 ≤ result }
{
    cells.load_epoch(pass);
    if pass.places() < READERS as usize {
        try_advance(cells, pass);
        return cells.load_epoch(pass);
    }
    try_advance(cells, pass);
    try_advance(cells, pass);
    cells.load_epoch(pass)
}

// Frees the slot's connection, where it may be freed by this epoch, and answers it. A slot whose first note says that it may not isn't touched.
fn collect_slot<L: Law, H: KeyHash>(
    cells: &Cells<L, H>,
    pass: &mut CellPass<L>,
    slot: u32,
    epoch: u64,
) -> Option<ConnId>
    requires own { IsPassIn cells.now pass.old }
    requires exists { slot < cells.now.table.shared.key.slots }
    requires legal { IsPass L.meaning (cell_pass pass.old.seat.me.0) }
    requires between { IsBetweenCalls L.meaning pass.old.seat.me.0 }
    requires loaded { pass.old.seat.me.0.epochs.loaded ≡ epoch }
    ensures own { IsPassIn cells.now pass.new }
    ensures collects { CollectsSlot L.meaning slot result pass.old.seat.me pass.new.seat.me }
    ensures tries { TriesSlot L.meaning H.digest cells.now.table.shared.key slot result pass.old.seat.me.0 pass.new.seat.me.0 }
{
    let note = cells.load_word(pass, Pool::Slots, slot, FIRST_NOTE);
    if note < EPOCHS || note - EPOCHS + 2 > epoch {
        return None;
    }
    reclaim(cells, pass, slot, epoch)
}
