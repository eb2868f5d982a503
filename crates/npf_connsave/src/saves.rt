// The connections of a table as a text.
ghost use Rattle.std.specs.Prelude.{◌≡◌, IfOk};
ghost use Rattle.npf_core.specs.History.{state_of};
ghost use Rattle.npf_connections.specs.Pass.{all_places};
ghost use Rattle.npf_connections.specs.Stay.{IsOut};
ghost use Rattle.npf_flow.specs.Flows.{flow_law};
ghost use Rattle.npf_connsave.specs.Copied.{AreCopied, saved_of};
ghost use Rattle.npf_connsave.specs.Saves.{AreSavedOf, IsSavedText};

use npf_connections::Connections;
use npf_core::Kept;
use npf_flow::{Flow, FlowLaw};
use npf_saved::{Saved, saved_text};
use npf_types::{Name, NoMemory};
use std::alloc::Global;
use std::sync::Wait;

/// The text of the table's connections and of these interfaces. The pass owns all reader places, so
/// no other is left; it is as it was after the call.
pub fn save<R: Wait, C: Connections<FlowLaw>>(
    rt: &R,
    alloc: Global,
    conns: &C,
    pass: &mut C::Pass,
    names: &[Name],
) -> Result<Vec<u8>, NoMemory>
    requires out { IsOut flow_law (C.fits conns.now) C.view pass.old }
    requires sole { (C.view pass.old).places ≡ all_places }
    ensures out { IsOut flow_law (C.fits conns.now) C.view pass.new }
    ensures same { C.view pass.new ≡ C.view pass.old }
    ensures saved { IfOk result (λ text. IsSavedText (state_of flow_law (C.view pass.old).history) names.now text.items) }
{
    let saved = saved_conns(rt, alloc, conns, pass)?;
    saved_text(alloc, names, &saved)
}

/// The connections that are saved, by rising forward keys.
fn saved_conns<R: Wait, C: Connections<FlowLaw>>(
    rt: &R,
    alloc: Global,
    conns: &C,
    pass: &mut C::Pass,
) -> Result<Vec<Saved>, NoMemory>
    requires out { IsOut flow_law (C.fits conns.now) C.view pass.old }
    requires sole { (C.view pass.old).places ≡ all_places }
    ensures out { IsOut flow_law (C.fits conns.now) C.view pass.new }
    ensures same { C.view pass.new ≡ C.view pass.old }
    ensures saved { IfOk result (λ saved. AreSavedOf (state_of flow_law (C.view pass.old).history) saved.items) }
{
    let mut saved = copies(rt, alloc, conns, pass)?;
    saved.sort_by_key(|conn| conn.forward)?;
    Ok(saved)
}

/// The connections that are saved, by rising slots.
fn copies<R: Wait, C: Connections<FlowLaw>>(
    rt: &R,
    alloc: Global,
    conns: &C,
    pass: &mut C::Pass,
) -> Result<Vec<Saved>, NoMemory>
    requires out { IsOut flow_law (C.fits conns.now) C.view pass.old }
    requires sole { (C.view pass.old).places ≡ all_places }
    ensures out { IsOut flow_law (C.fits conns.now) C.view pass.new }
    ensures same { C.view pass.new ≡ C.view pass.old }
    ensures copied { IfOk result (λ saved. AreCopied (state_of flow_law (C.view pass.old).history) (C.view pass.old).slots saved.items) }
{
    let mut saved = Vec::new(alloc);
    for slot in 0..conns.slots() {
        let Some(kept) = conns.copy_slot(rt, pass, slot) else {
            continue;
        };
        if let Some(conn) = saved_of(&kept) {
            saved.push(conn)?;
        }
    }
    Ok(saved)
}

/// What is saved of a connection, if it holds a forward key.
fn saved_of(kept: &Kept<Flow>) -> Option<Saved>
    ensures { result ≡ saved_of kept.now }
{
    let forward = kept.forward?;
    Some(Saved {
        forward,
        port: kept.port,
        backward: kept.backward,
        flow: Flow {
            opener: 0,
            ..kept.state
        },
    })
}
