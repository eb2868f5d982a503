// The decision of all classes, each by one worker.
ghost use Rattle.std.specs.Prelude.{◌≡◌, ◌≤◌, ◌<◌, ℕ, true, All, IfOk, length, slice_index_or};
ghost use Rattle.npf_pieces.specs.Overlap.{IsTaken};
ghost use Rattle.npf_reass_sets.specs.Class.{DecidesClass};
ghost use Rattle.npf_reass_sets.specs.Order.{AreByPlace};

use npf_reass_sets::ClassSets;
use npf_types::NoMemory;
use std::alloc::Global;
use std::thread::{Threads, for_each_mut};

/// Decides all classes at once, each of them by one of the workers.
pub(crate) fn decide_all<R: Threads + Sync>(
    rt: &R,
    alloc: Global,
    classes: &mut [ClassSets],
    workers: u32,
) -> Result<(), NoMemory>
    requires taken { All (λ class. All IsTaken class.arrived.items) classes.old }
    requires order { All (λ class. AreByPlace class.arrived.items) classes.old }
    requires workers { 1 ≤ workers }
    ensures count { length classes.new ≡ length classes.old }
    ensures each { IfOk result (λ _. (i : ℕ) (d : _) → i < length classes.old
        → DecidesClass (slice_index_or classes.old i d).arrived.items (slice_index_or classes.new i d)) }
{
    work_all(rt, alloc, classes, workers);
    if are_decided(classes) {
        Ok(())
    } else {
        Err(NoMemory)
    }
}

fn work_all<R: Threads + Sync>(rt: &R, alloc: Global, classes: &mut [ClassSets], workers: u32)
    requires taken { All (λ class. All IsTaken class.arrived.items) classes.old }
    requires order { All (λ class. AreByPlace class.arrived.items) classes.old }
    requires workers { 1 ≤ workers }
    ensures count { length classes.new ≡ length classes.old }
    ensures each { (i : ℕ) (d : _) → i < length classes.old → (slice_index_or classes.new i d).decided ≡ true
        → DecidesClass (slice_index_or classes.old i d).arrived.items (slice_index_or classes.new i d) }
{
    for_each_mut(
        rt,
        classes,
        workers as usize,
        &|_, class: &mut ClassSets|
            requires { All IsTaken class.old.arrived.items × AreByPlace class.old.arrived.items }
        { class.decide(alloc) },
    );
}

/// Whether there was memory for all decisions.
fn are_decided(classes: &[ClassSets]) -> bool
    ensures { result ≡ true → All (λ class. class.decided ≡ true) classes.now }
{
    for class in classes {
        if !class.decided {
            return false;
        }
    }
    true
}
