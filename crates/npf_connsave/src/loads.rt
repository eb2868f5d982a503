// The connections of a text put into a new table.
ghost use Rattle.std.specs.Prelude.{◌≡◌, ◌≤◌, ◌++◌, ◌∷◌, [], IfErr, OnOk, false, length, true};
ghost use Rattle.npf_types.specs.declared.key.Way.{Way as WayType};
ghost use Rattle.npf_core.specs.History.{state_of};
ghost use Rattle.npf_core.specs.Machine.{HoldsNone};
ghost use Rattle.npf_connections.specs.Pass.{all_places};
ghost use Rattle.npf_connections.specs.Stay.{IsIn, IsOut};
ghost use Rattle.npf_flow.specs.Flows.{flow_law};
ghost use Rattle.npf_saved_file.specs.Conns.{AreDistinct, AreSavedConns, key_list, saved_keys};
ghost use Rattle.npf_connsave.specs.Loads.{AllClaimed, AreFree, LeavesFront, LeavesOne, LoadsSaved, RefusesKey, RefusesKeys, RefusesLoaded, StartsAll, StartsOne, StaysSole, hold_entries_of, key_entries};

use npf_connections::Connections;
use npf_core::{ConnId, Held};
use npf_flow::FlowLaw;
use npf_saved::Saved;
use npf_saved_file::{SavedFault, read_saved};
use npf_types::limits::MAX_SAVED_BYTES;
use npf_types::{Key, Name, Way};
use std::alloc::Global;
use std::sync::Wait;

/// The connections of loaded text carry the number of no packet.
const NO_PACKET: u64 = 0;

/// Loads the connections of the text, which has at most `MAX_SAVED_BYTES` bytes, into a new table,
/// for a run of these interfaces. The pass owns all reader places. The text is refused as
/// `read_saved` refuses it, before the table is asked; and with `SavedNoNode` where the table had
/// no node for a key: then the connections before it stay.
pub fn load<R: Wait, C: Connections<FlowLaw>>(
    rt: &R,
    alloc: Global,
    conns: &C,
    pass: &mut C::Pass,
    names: &[Name],
    text: &[u8],
) -> Result<(), SavedFault>
    requires out { IsOut flow_law (C.fits conns.now) C.view pass.old }
    requires sole { (C.view pass.old).places ≡ all_places }
    requires new { (C.view pass.old).history ≡ [] }
    requires short { length text.now ≤ MAX_SAVED_BYTES }
    ensures out { IsOut flow_law (C.fits conns.now) C.view pass.new }
    ensures same { StaysSole (C.view pass.old) (C.view pass.new) }
    ensures loads { OnOk result (LoadsSaved names.now text.now (C.view pass.old) (C.view pass.new)) }
    ensures refused { IfErr result (RefusesLoaded names.now text.now (C.view pass.old) (C.view pass.new)) }
{
    let saved = read_saved(alloc, text, names, conns.slots())?;
    conns.enter(rt, pass);
    let loaded = start_all(rt, conns, pass, &saved);
    conns.leave(rt, pass);
    if loaded {
        Ok(())
    } else {
        Err(SavedFault::SavedNoNode)
    }
}

/// Starts all of these. False where the table had no node for a key of one: it is abandoned, and
/// those before it stay.
fn start_all<R: Wait, C: Connections<FlowLaw>>(
    rt: &R,
    conns: &C,
    pass: &mut C::Pass,
    all: &[Saved],
) -> bool
    requires inside { IsIn flow_law (C.fits conns.now) C.view pass.old }
    requires idle { (C.view pass.old).builds ≡ [] }
    requires sole { (C.view pass.old).places ≡ all_places }
    requires new { (C.view pass.old).history ≡ [] }
    requires good { AreSavedConns all.now }
    requires room { length all.now ≤ (C.view pass.old).slots }
    ensures inside { IsIn flow_law (C.fits conns.now) C.view pass.new }
    ensures idle { (C.view pass.new).builds ≡ [] }
    ensures same { StaysSole (C.view pass.old) (C.view pass.new) }
    ensures all { result ≡ true → StartsAll (C.view pass.old) (C.view pass.new) all.now }
    ensures refused { result ≡ false → LeavesFront (C.view pass.old) (C.view pass.new) all.now }
{
    for saved in all {
        if !start_one(rt, conns, pass, saved) {
            return false;
        }
    }
    true
}

/// Starts this one, for which there is a slot, and whose keys have no holder. False where the table
/// had no node for one of them: the connection is abandoned.
fn start_one<R: Wait, C: Connections<FlowLaw>>(
    rt: &R,
    conns: &C,
    pass: &mut C::Pass,
    saved: &Saved,
) -> bool
    requires inside { IsIn flow_law (C.fits conns.now) C.view pass.old }
    requires idle { (C.view pass.old).builds ≡ [] }
    requires sole { (C.view pass.old).places ≡ all_places }
    requires room { ¬ AllClaimed (state_of flow_law (C.view pass.old).history) (C.view pass.old).slots }
    requires free { AreFree (state_of flow_law (C.view pass.old).history) (saved_keys saved.now) }
    requires apart { AreDistinct (saved_keys saved.now) }
    ensures inside { IsIn flow_law (C.fits conns.now) C.view pass.new }
    ensures idle { (C.view pass.new).builds ≡ [] }
    ensures same { StaysSole (C.view pass.old) (C.view pass.new) }
    ensures starts { result ≡ true → StartsOne (C.view pass.old) (C.view pass.new) saved.now }
    ensures refused { result ≡ false → LeavesOne (C.view pass.old) (C.view pass.new) saved.now }
{
    let Some(id) = conns.begin(rt, pass, NO_PACKET) else {
        unreachable!();
    };
    if !hold_keys(rt, conns, pass, id, saved) {
        conns.abandon(rt, pass, id);
        return false;
    }
    conns.start(rt, pass, id, NO_PACKET, saved.flow);
    true
}

/// Holds the connection's keys, none of which has a holder. False where the table had no node for
/// one.
fn hold_keys<R: Wait, C: Connections<FlowLaw>>(
    rt: &R,
    conns: &C,
    pass: &mut C::Pass,
    id: ConnId,
    saved: &Saved,
) -> bool
    requires inside { IsIn flow_law (C.fits conns.now) C.view pass.old }
    requires builds { (C.view pass.old).builds ≡ id ∷ [] }
    requires sole { (C.view pass.old).places ≡ all_places }
    requires bare { (way : WayType) → HoldsNone (state_of flow_law (C.view pass.old).history) id way }
    requires free { AreFree (state_of flow_law (C.view pass.old).history) (saved_keys saved.now) }
    requires apart { AreDistinct (saved_keys saved.now) }
    ensures inside { IsIn flow_law (C.fits conns.now) C.view pass.new }
    ensures builds { (C.view pass.new).builds ≡ id ∷ [] }
    ensures same { StaysSole (C.view pass.old) (C.view pass.new) }
    ensures holds { result ≡ true → (C.view pass.new).history ≡ (C.view pass.old).history ++ key_entries (C.view pass.old).number id saved.now }
    ensures refused { result ≡ false → RefusesKeys (C.view pass.old) (C.view pass.new) id saved.now }
{
    if !hold_key(rt, conns, pass, id, Some(saved.forward), Way::Forward) {
        return false;
    }
    if !hold_key(rt, conns, pass, id, saved.port, Way::Port) {
        return false;
    }
    hold_key(rt, conns, pass, id, saved.backward, Way::Backward)
}

/// Holds the key, if there is one, which has no holder. False where the table had no node for it.
fn hold_key<R: Wait, C: Connections<FlowLaw>>(
    rt: &R,
    conns: &C,
    pass: &mut C::Pass,
    id: ConnId,
    key: Option<Key>,
    way: Way,
) -> bool
    requires inside { IsIn flow_law (C.fits conns.now) C.view pass.old }
    requires builds { (C.view pass.old).builds ≡ id ∷ [] }
    requires sole { (C.view pass.old).places ≡ all_places }
    requires bare { HoldsNone (state_of flow_law (C.view pass.old).history) id way }
    requires free { AreFree (state_of flow_law (C.view pass.old).history) (key_list key) }
    ensures inside { IsIn flow_law (C.fits conns.now) C.view pass.new }
    ensures builds { (C.view pass.new).builds ≡ id ∷ [] }
    ensures same { StaysSole (C.view pass.old) (C.view pass.new) }
    ensures holds { result ≡ true → (C.view pass.new).history ≡ (C.view pass.old).history ++ hold_entries_of (C.view pass.old).number id way key }
    ensures refused { result ≡ false → RefusesKey (C.view pass.old) (C.view pass.new) }
{
    let Some(key) = key else {
        return true;
    };
    match conns.hold(rt, pass, id, key, way) {
        Held::Done => true,
        Held::NoNode => false,
        Held::Taken(_) => unreachable!(),
    }
}
