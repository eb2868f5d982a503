// The lock of a place is taken.
ghost use Rattle.std.specs.Prelude.{◌≡◌, None, [], ◌∷◌, true, false, Contains};
ghost use Rattle.npf_cells_holds.specs.LockKinds.{locking};
ghost use Rattle.npf_cells_words.specs.Places.{IsLockOf};
ghost use Rattle.npf_cells_rule.specs.Views.{with_trie};
ghost use Rattle.npf_cells.specs.Cells.{IsPassIn};
ghost use Rattle.npf_cells_rule.specs.Passes.{IsProtected};

use npf_cells::{CellPass, Cells, Pool};
use npf_cells_words::STATE;
use npf_core::Law;
use npf_paths::{KeyHash, Lock};
use std::sync::Wait;
use std::thread::yield_now;

/// The state that frees a lock.
const FREE: u64 = 0;

/// The state of a node that its pass marked; one of a node that was let go is higher.
const MARKED: u64 = 2;

/// Gets a lock that the pass hasn't, and waits as long as another pass has it. After each refused try another thread may run.
pub fn lock<L: Law, H: KeyHash>(
    rt: &impl Wait,
    cells: &Cells<L, H>,
    pass: &mut CellPass<L>,
    lock: Lock,
)
    requires own { IsPassIn cells.now pass.old }
    requires lock { IsLockOf cells.now.table.shared.key lock }
    requires protected { IsProtected pass.old.seat.me.0.epochs.pin }
    ensures own { IsPassIn cells.now pass.new }
    ensures gets { pass.new.seat.me ≡ with_trie pass.old.seat.me (locking lock pass.old.seat.me.0.trie) }
    ensures other { ¬ Contains pass.old.seat.me.0.trie.locks lock }
{
    for _ in rt.forever() {
        if cells.try_lock(pass, lock) {
            return;
        }
        yield_now();
    }
    unreachable!()
}

/// Gets the lock of a place, and waits as long as another pass has it; but not at a node that is taken off, since nobody frees its lock.
/// Answers whether it got the lock.
pub fn lock_hung<L: Law, H: KeyHash>(
    rt: &impl Wait,
    cells: &Cells<L, H>,
    pass: &mut CellPass<L>,
    lock: Lock,
) -> bool
    requires own { IsPassIn cells.now pass.old }
    requires lock { IsLockOf cells.now.table.shared.key lock }
    requires protected { IsProtected pass.old.seat.me.0.epochs.pin }
    ensures own { IsPassIn cells.now pass.new }
    ensures gets { result ≡ true → pass.new.seat.me ≡ with_trie pass.old.seat.me (locking lock pass.old.seat.me.0.trie) }
    ensures same { result ≡ false → pass.new.seat.me ≡ pass.old.seat.me }
{
    for _ in rt.forever() {
        if cells.try_lock(pass, lock) {
            return true;
        }
        if is_marked(cells, pass, lock) {
            return false;
        }
        yield_now();
    }
    unreachable!()
}

// Whether the lock is of a node that its pass marked, or let go.
fn is_marked<L: Law, H: KeyHash>(cells: &Cells<L, H>, pass: &mut CellPass<L>, lock: Lock) -> bool
    requires own { IsPassIn cells.now pass.old }
    requires lock { IsLockOf cells.now.table.shared.key lock }
    ensures own { IsPassIn cells.now pass.new }
    ensures same { pass.new.seat.me ≡ pass.old.seat.me }
{
    match lock {
        Lock::Root(_) => false,
        Lock::Node(node) => cells.load_word(pass, Pool::Nodes, node, STATE) >= MARKED,
    }
}

/// Frees the one lock that the pass has, which is of no node that it marked, and forgets what it found under the lock.
pub fn unlock<L: Law, H: KeyHash>(cells: &Cells<L, H>, pass: &mut CellPass<L>, lock: Lock)
    requires own { IsPassIn cells.now pass.old }
    requires lock { IsLockOf cells.now.table.shared.key lock }
    requires only { pass.old.seat.me.0.trie.locks ≡ lock ∷ [] }
    requires unmarked { pass.old.seat.me.0.trie.marks ≡ [] }
    ensures own { IsPassIn cells.now pass.new }
    ensures frees { pass.new.seat.me ≡ with_trie pass.old.seat.me (record pass.old.seat.me.0.trie { locks = []; emptied = None; met_mark = None }) }
{
    cells.store_node(pass, lock, FREE);
}
