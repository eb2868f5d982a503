// A slot or a node taken.
//
// A search begins in the word where the pass found a place last; which word that is no clause says, as any number is a hint. Where another
// was faster the sweep begins anew at the first word, so that each search tries the lowest place that it found clear, and a row of full
// words is one sweep. The last word of a pool is never the hinted one, since its load may end such a row.
ghost use Rattle.std.specs.Prelude.{◌≡◌, ◌≢◌, ◌-◌, ◌^◌, ◌<◌, ℕ, IfSome, IfNone, Contains};
ghost use Rattle.std.specs.Int.{bit_at};
ghost use Rattle.npf_cells_words.specs.declared.layout.Pool.TheVariants.{Slots, Nodes};
ghost use Rattle.npf_cells_words.specs.Layout.{pool_places, pool_words};
ghost use Rattle.npf_connections.specs.Beginning.{IsFullBetween};
ghost use Rattle.npf_cells.specs.Cells.{IsPassIn};
ghost use Rattle.npf_cells_rule.specs.Passes.{IsProtected, cell_pass};
ghost use Rattle.npf_cells_takes.specs.PoolKinds.{NeedsNode};
ghost use Rattle.npf_cells_rule.specs.Views.{with_pools};
ghost use Rattle.npf_cells_takes.specs.SlotKinds.{HasClaimed};
ghost use Rattle.npf_pool.specs.Takes.{searching, taking, having_swept, CountsSweep, StoodFull, HasSeenMore};

use npf_cells::{CellPass, Cells, Pool};
use npf_core::Law;
use npf_paths::KeyHash;
use std::sync::Wait;

/// Takes a node, or claims a slot for the packet n. None only after a sweep that found each word of that pool full; of the slots, each was
/// claimed at some point of this call.
pub fn take<L: Law, H: KeyHash>(
    rt: &impl Wait,
    cells: &Cells<L, H>,
    pass: &mut CellPass<L>,
    pool: Pool,
    n: u64,
) -> Option<u32>
    requires own { IsPassIn cells.now pass.old }
    requires protected { IsProtected pass.old.seat.me.0.epochs.pin }
    requires needs { pool ≡ Nodes → NeedsNode H.digest pass.old.seat.me.0 }
    ensures own { IsPassIn cells.now pass.new }
    ensures within { IfSome result (λ place. place < pool_places cells.now.table.shared.key pool) }
    ensures claims { IfSome result (λ slot. pool ≡ Slots → HasClaimed L.meaning n slot pass.old.seat.me pass.new.seat.me) }
    ensures unowned { IfSome result (λ node. pool ≡ Nodes → ¬ (Contains pass.old.seat.me.0.pools.nodes node)) }
    ensures sees { IfNone result (pool ≡ Slots → HasSeenMore L.meaning pass.old.seat.me pass.new.seat.me) }
    ensures takes { IfSome result (λ node. pool ≡ Nodes → pass.new.seat.me ≡ with_pools pass.old.seat.me (taking node pass.old.seat.me.0.pools pass.new.seat.me.0.pools)) }
    ensures none { IfNone result (pool ≡ Nodes → pass.new.seat.me ≡ with_pools pass.old.seat.me (having_swept pass.old.seat.me.0.pools pass.new.seat.me.0.pools)) }
    ensures swept { IfNone result (pool ≡ Nodes → CountsSweep (pool_words cells.now.table.shared.key.nodes) pass.old.seat.me.0.pools pass.new.seat.me.0.pools) }
    ensures full { IfNone result (pool ≡ Nodes → (word : ℕ) → word < pool_words cells.now.table.shared.key.nodes → StoodFull L.meaning H.digest cells.now.table.shared.key pass.old.seat.me.0 word) }
    ensures claimed { IfNone result (pool ≡ Slots → IsFullBetween L.meaning (cell_pass pass.old.seat.me.0) pass.new.seat.me.0.seats.history) }
{
    for _ in rt.forever() {
        match find_clear(cells, pass, pool) {
            Some(place) => {
                if cells.claim(pass, pool, place, n) {
                    pass.set_hint(pool, place / 64);
                    return Some(place);
                }
            }
            None => return None,
        }
    }
    unreachable!()
}

// Looks for a clear bit in the word where the pass found one last, and sweeps the pool if there is none. Answers the first place whose
// bit it found clear.
fn find_clear<L: Law, H: KeyHash>(
    cells: &Cells<L, H>,
    pass: &mut CellPass<L>,
    pool: Pool,
) -> Option<u32>
    requires own { IsPassIn cells.now pass.old }
    requires needs { pool ≡ Nodes → NeedsNode H.digest pass.old.seat.me.0 }
    ensures own { IsPassIn cells.now pass.new }
    ensures within { IfSome result (λ place. place < pool_places cells.now.table.shared.key pool) }
    ensures searches { IfSome result (λ place. pool ≡ Nodes → pass.new.seat.me ≡ with_pools pass.old.seat.me (searching pass.old.seat.me.0.pools pass.new.seat.me.0.pools)) }
    ensures sees { pool ≡ Slots → HasSeenMore L.meaning pass.old.seat.me pass.new.seat.me }
    ensures none { IfNone result (pool ≡ Nodes → pass.new.seat.me ≡ with_pools pass.old.seat.me (having_swept pass.old.seat.me.0.pools pass.new.seat.me.0.pools)) }
    ensures swept { IfNone result (pool ≡ Nodes → CountsSweep (pool_words cells.now.table.shared.key.nodes) pass.old.seat.me.0.pools pass.new.seat.me.0.pools) }
    ensures full { IfNone result (pool ≡ Nodes → (word : ℕ) → word < pool_words cells.now.table.shared.key.nodes → StoodFull L.meaning H.digest cells.now.table.shared.key pass.old.seat.me.0 word) }
    ensures claimed { IfNone result (pool ≡ Slots → IsFullBetween L.meaning (cell_pass pass.old.seat.me.0) pass.new.seat.me.0.seats.history) }
{
    match find_hinted(cells, pass, pool) {
        Some(place) => Some(place),
        None => sweep(cells, pass, pool),
    }
}

// Loads the word in which the pass found a clear bit last. Answers the first place whose bit is clear there. Of the last word nothing is
// loaded, since by such a load a row of full words may become whole.
fn find_hinted<L: Law, H: KeyHash>(
    cells: &Cells<L, H>,
    pass: &mut CellPass<L>,
    pool: Pool,
) -> Option<u32>
    requires own { IsPassIn cells.now pass.old }
    requires needs { pool ≡ Nodes → NeedsNode H.digest pass.old.seat.me.0 }
    ensures own { IsPassIn cells.now pass.new }
    ensures within { IfSome result (λ place. place < pool_places cells.now.table.shared.key pool) }
    ensures searches { pool ≡ Nodes → pass.new.seat.me ≡ with_pools pass.old.seat.me (searching pass.old.seat.me.0.pools pass.new.seat.me.0.pools) }
    ensures sees { pool ≡ Slots → HasSeenMore L.meaning pass.old.seat.me pass.new.seat.me }
{
    let words = cells.layout().pool_words(pool);
    let hint = pass.hint(pool);
    if hint >= words.saturating_sub(1) {
        return None;
    }
    let hinted = cells.load_pool(pass, pool, hint);
    if hinted == u64::MAX {
        return None;
    }
    Some(64 * hint + lowest_clear(hinted))
}

// Sweeps a pool, up to the first word that isn't full. Answers the first place whose bit it found clear.
fn sweep<L: Law, H: KeyHash>(cells: &Cells<L, H>, pass: &mut CellPass<L>, pool: Pool) -> Option<u32>
    requires own { IsPassIn cells.now pass.old }
    requires needs { pool ≡ Nodes → NeedsNode H.digest pass.old.seat.me.0 }
    ensures own { IsPassIn cells.now pass.new }
    ensures within { IfSome result (λ place. place < pool_places cells.now.table.shared.key pool) }
    ensures searches { IfSome result (λ place. pool ≡ Nodes → pass.new.seat.me ≡ with_pools pass.old.seat.me (searching pass.old.seat.me.0.pools pass.new.seat.me.0.pools)) }
    ensures sees { pool ≡ Slots → HasSeenMore L.meaning pass.old.seat.me pass.new.seat.me }
    ensures none { IfNone result (pool ≡ Nodes → pass.new.seat.me ≡ with_pools pass.old.seat.me (having_swept pass.old.seat.me.0.pools pass.new.seat.me.0.pools)) }
    ensures swept { IfNone result (pool ≡ Nodes → CountsSweep (pool_words cells.now.table.shared.key.nodes) pass.old.seat.me.0.pools pass.new.seat.me.0.pools) }
    ensures full { IfNone result (pool ≡ Nodes → (word : ℕ) → word < pool_words cells.now.table.shared.key.nodes → StoodFull L.meaning H.digest cells.now.table.shared.key pass.old.seat.me.0 word) }
    ensures claimed { IfNone result (pool ≡ Slots → IsFullBetween L.meaning (cell_pass pass.old.seat.me.0) pass.new.seat.me.0.seats.history) }
{
    let words = cells.layout().pool_words(pool);
    for word in 0..words {
        let found = cells.load_pool(pass, pool, word);
        if found != u64::MAX {
            return Some(64 * word + lowest_clear(found));
        }
    }
    None
}

// The place of the lowest bit that is clear.
fn lowest_clear(found: u64) -> u32
    requires { found ≢ 2 ^ 64 - 1 }
    ensures within { result < 64 }
    ensures clear { bit_at found result ≡ 0 }
{
    found.trailing_ones()
}
