// A connection's own key is stored, with where its leaf stands.
ghost use Rattle.std.specs.Prelude.{◌≡◌, ◌<◌, ◌^◌, ◌∷◌};
ghost use Rattle.npf_cells_words.specs.Codes.{place_code};
ghost use Rattle.npf_cells_words.specs.Layout.{key_field, note_field};
ghost use Rattle.npf_cells_lives.specs.Notes.{notes_but};
ghost use Rattle.npf_cells.specs.Cells.{IsPassIn};
ghost use Rattle.npf_cells_rule.specs.Views.{with_pools};
ghost use Rattle.npf_cells_holds.specs.PublishKinds.{HasStoredKey};
ghost use Rattle.npf_trie.specs.Stores.{KeepsNodes, MayStoreKey};

use npf_cells::{CellPass, Cells, Pool};
use npf_cells_words::{note_field, place_code};
use npf_core::Law;
use npf_paths::{KeyHash, Place};
use npf_types::{Key, Way};

/// How many words a key has.
const KEY_WORDS: u32 = 5;

/// Stores the five words of a key in the slot of a connection that the pass is building, which holds no key of that way yet.
pub(crate) fn store_key<L: Law, H: KeyHash>(
    cells: &Cells<L, H>,
    pass: &mut CellPass<L>,
    slot: u32,
    way: Way,
    key: &Key,
)
    requires own { IsPassIn cells.now pass.old }
    requires slot { slot < cells.now.table.shared.key.slots }
    requires may { MayStoreKey L.meaning pass.old.seat.me.0 slot way }
    ensures own { IsPassIn cells.now pass.new }
    ensures next { pass.new.seat.me ≡ with_pools pass.old.seat.me (record pass.old.seat.me.0.pools { stored = pass.new.seat.me.0.pools.stored }) }
    ensures stores { HasStoredKey cells.now.table.shared.key pass.new.seat.me.0.pools.stored slot way key.now }
    ensures keeps { KeepsNodes cells.now.table.shared.key pass.old.seat.me.0.pools.stored pass.new.seat.me.0.pools.stored }
{
    let first = first_key_field(way);
    for word in 0..KEY_WORDS {
        cells.store_private(pass, Pool::Slots, slot, first + word, key.0[word as usize]);
    }
}

/// The note of a leaf that stands in this place.
pub(crate) fn leaf_note(place: Place) -> u64
    ensures is { result ≡ place_code place }
    ensures low { result < 2 ^ 63 }
{
    place_code(place)
}

/// Stores the note of a way of a connection that the pass is building, which holds no key of that way yet.
pub(crate) fn store_note<L: Law, H: KeyHash>(
    cells: &Cells<L, H>,
    pass: &mut CellPass<L>,
    slot: u32,
    way: Way,
    value: u64,
)
    requires own { IsPassIn cells.now pass.old }
    requires slot { slot < cells.now.table.shared.key.slots }
    requires may { MayStoreKey L.meaning pass.old.seat.me.0 slot way }
    requires low { value < 2 ^ 63 }
    ensures own { IsPassIn cells.now pass.new }
    ensures next { pass.new.seat.me ≡ with_pools pass.old.seat.me (record pass.old.seat.me.0.pools { notes = (record { slot = slot; field = note_field way; value = value }) ∷ notes_but slot (note_field way) pass.old.seat.me.0.pools.notes }) }
{
    cells.store_private(pass, Pool::Slots, slot, note_field(way), value);
}

// The field of the first word of a way's key among a connection's words.
fn first_key_field(way: Way) -> u32
    ensures { result ≡ key_field way }
{
    match way {
        Way::Forward => 3,
        Way::Backward => 8,
        Way::Port => 13,
    }
}
