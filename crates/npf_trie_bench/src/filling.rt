// The keys, each held for a connection of its own.
ghost use Rattle.std.specs.Prelude.{◌≡◌, [], None};
ghost use Rattle.npf_cells_pins.specs.declared.pin.Pin.TheVariants.{Idle};
ghost use Rattle.npf_cells.specs.Cells.{IsPassIn};
ghost use Rattle.npf_cells_rule.specs.Passes.{IsProtected};

use crate::drawn::{KEYS, key};
use npf_cells::{CellPass, Cells};
use npf_core::Held;
use npf_flow::FlowLaw;
use npf_paths::Fnv;
use npf_pool_beginning::begin;
use npf_trie::hold;
use npf_types::Way;
use std::sync::Wait;

/// Holds the keys in the pass's stay, and answers how many were held before one was refused.
pub fn fill(rt: &impl Wait, cells: &Cells<FlowLaw, Fnv>, pass: &mut CellPass<FlowLaw>) -> u32
    requires own { IsPassIn cells.now pass.old }
    requires protected { IsProtected pass.old.seat.me.0.epochs.pin }
    requires nodes { pass.old.seat.me.0.pools.nodes ≡ [] }
    requires unfreed { pass.old.seat.me.0.pools.unfreed ≡ [] }
    requires locks { pass.old.seat.me.0.trie.locks ≡ [] }
    requires turn { pass.old.seat.me.0.turn ≡ None }
    ensures own { IsPassIn cells.now pass.new }
    ensures protected { IsProtected pass.new.seat.me.0.epochs.pin }
    ensures locks { pass.new.seat.me.0.trie.locks ≡ [] }
{
    for number in 0..KEYS {
        if !hold_next(rt, cells, pass, number) {
            return number;
        }
    }
    KEYS
}

// Holds a key for a connection of its own. Answers whether it did.
fn hold_next(
    rt: &impl Wait,
    cells: &Cells<FlowLaw, Fnv>,
    pass: &mut CellPass<FlowLaw>,
    number: u32,
) -> bool
    requires own { IsPassIn cells.now pass.old }
    requires protected { IsProtected pass.old.seat.me.0.epochs.pin }
    requires nodes { pass.old.seat.me.0.pools.nodes ≡ [] }
    requires unfreed { pass.old.seat.me.0.pools.unfreed ≡ [] }
    requires locks { pass.old.seat.me.0.trie.locks ≡ [] }
    requires turn { pass.old.seat.me.0.turn ≡ None }
    ensures own { IsPassIn cells.now pass.new }
    ensures protected { IsProtected pass.new.seat.me.0.epochs.pin }
    ensures nodes { pass.new.seat.me.0.pools.nodes ≡ [] }
    ensures unfreed { pass.new.seat.me.0.pools.unfreed ≡ [] }
    ensures locks { pass.new.seat.me.0.trie.locks ≡ [] }
    ensures turn { pass.new.seat.me.0.turn ≡ None }
{
    match begin(rt, cells, pass) {
        Some(id) => hold(rt, cells, pass, id, key(number), Way::Forward) == Held::Done,
        None => false,
    }
}
