// What is done under the turn.
ghost use Rattle.std.specs.Prelude.{◌≡◌, ◌≤◌, ℕ};
ghost use Rattle.npf_core.specs.declared.act.Act.TheVariants.{Kill};
ghost use Rattle.npf_core.specs.declared.act.Why.{Why};
ghost use Rattle.npf_core.specs.declared.stage.Stage.TheVariants.{Dead};
ghost use Rattle.npf_core.specs.Allowed.{Allows};
ghost use Rattle.npf_core.specs.Machine.{Machine, stage_of};
ghost use Rattle.npf_oneturn_store.specs.Represents.{Represents};
ghost use Rattle.npf_oneturn_store.specs.Store.{phase_of, IsAlivePhase, HoldsNoKey};
ghost use Rattle.npf_oneturn.specs.Work.{GivesUp, EndsConnection, FreesAt, FreesBelow, DeadAreBare, ExpiresAt, ExpiresBelow};
ghost use Rattle.npf_types.specs.declared.key.Way.{Way};

use crate::contents::Contents;
use npf_core::{ConnId, Law};
use npf_oneturn_store::{Store, due};
use npf_types::Way;

/// Gives up the key that a Dead connection holds that way. Tells whether it held one.
fn give_up<L: Law>(store: &mut Store<L::State>, id: ConnId, way: Way) -> bool
    ensures gives { (slots : ℕ) (k : Machine L.State) (seat : ℕ) → Represents slots store.old k → stage_of k id ≡ Dead → GivesUp L.meaning slots k seat id way result store.new }
    ensures gone { HoldsNoKey store.new id way }
    ensures bare { (other : Way) → HoldsNoKey store.old id other → HoldsNoKey store.new id other }
{
    let held = store.held(id, way).is_some();
    store.unhold(id, way);
    held
}

/// Kills a connection, and gives up its keys.
pub(crate) fn end_connection<L: Law>(store: &mut Store<L::State>, id: ConnId)
    requires { IsAlivePhase (phase_of store.old id) }
    ensures ends { (slots : ℕ) (k : Machine L.State) (seat : ℕ) (why : Why) → Represents slots store.old k → Allows L.meaning slots k seat (Kill id why) → EndsConnection L.meaning slots k seat id why store.new }
    ensures bare { (way : Way) → HoldsNoKey store.new id way }
{
    store.kill(id);
    give_up::<L>(store, id, Way::Forward);
    give_up::<L>(store, id, Way::Backward);
    give_up::<L>(store, id, Way::Port);
}

/// Frees the slot's connection, if it may be freed.
fn free_dead<L: Law>(store: &mut Store<L::State>, slot: u32)
    requires { DeadAreBare store.old }
    ensures frees { (slots : ℕ) (k : Machine L.State) (seat : ℕ) → Represents slots store.old k → FreesAt L.meaning slots k seat slot store.new }
    ensures bare { DeadAreBare store.new }
{
    let Some(id) = store.dead(slot) else {
        return;
    };
    if id.inc == u64::MAX {
        return;
    }
    store.free(id);
}

/// Frees each connection that may be freed.
pub(crate) fn free_all<L: Law>(store: &mut Store<L::State>)
    requires { DeadAreBare store.old }
    ensures { (slots : ℕ) (k : Machine L.State) (seat : ℕ) → Represents slots store.old k → FreesBelow L.meaning slots k seat slots store.new }
{
    for slot in 0..store.slots() {
        free_dead::<L>(store, slot);
    }
}

/// Frees what may be freed: nothing while a pass is entered, since it may know any of it.
pub(crate) fn collect_contents<L: Law>(contents: &mut Contents<L::State>)
    requires { DeadAreBare contents.old.store }
    ensures entered { contents.new.entered ≡ contents.old.entered }
    ensures frees { contents.old.entered ≡ 0 → (slots : ℕ) (k : Machine L.State) (seat : ℕ) → Represents slots contents.old.store k → FreesBelow L.meaning slots k seat slots contents.new.store }
    ensures same { ¬ (contents.old.entered ≡ 0) → contents.new ≡ contents.old }
{
    if contents.entered == 0 {
        free_all::<L>(&mut contents.store);
    }
}

/// Kills the slot's connection, if it is due at that time. Answers how many it killed: one or none.
fn expire_slot<L: Law>(store: &mut Store<L::State>, slot: u32, now: u64) -> u64
    ensures one { result ≤ 1 }
    ensures expires { (slots : ℕ) (k : Machine L.State) (seat : ℕ) → Represents slots store.old k → ExpiresAt L.meaning slots k seat now slot result store.new }
{
    let Some(id) = due::<L>(store, slot, now) else {
        return 0;
    };
    end_connection::<L>(store, id);
    1
}

/// Kills each connection that is due at that time, and answers how many.
pub(crate) fn expire_all<L: Law>(store: &mut Store<L::State>, now: u64) -> u64
    ensures { (slots : ℕ) (k : Machine L.State) (seat : ℕ) → Represents slots store.old k → ExpiresBelow L.meaning slots k seat now slots result store.new }
{
    let mut count = 0;
    for slot in 0..store.slots() {
        count += expire_slot::<L>(store, slot, now);
    }
    count
}
