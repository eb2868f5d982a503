// One act of the machine.
ghost use Rattle.std.specs.Prelude.{◌≡◌, ℕ, ◌↔◌, IsTrue, IfOk, OnErr};
ghost use Rattle.npf_core.specs.Allowed.{IsDue};
ghost use Rattle.npf_core.specs.Machine.{stage_of};
ghost use Rattle.npf_core.specs.PlainMachine.{state_in, slots_in};
ghost use Rattle.npf_core.specs.Plays.{PlaysOn, MayGive, WantsMemory};

use crate::act::{Act, Why};
use crate::conn_id::ConnId;
use crate::found::Found;
use crate::held::Held;
use crate::law::Law;
use crate::plain_machine::PlainMachine;
use crate::reply::Reply;
use crate::stage::Stage;
use crate::stepped::Stepped;
use npf_types::{Key, NoMemory, Way};

/// Asks the machine for an act under a seat. Some reply where the act is allowed, and None, with nothing changed, where it
/// isn't. Only a Hold that gives its key may want memory, and then nothing changes.
pub fn play<L: Law>(
    machine: &mut PlainMachine<L::State>,
    seat: u64,
    act: &Act<L::State, L::Arg>,
) -> Result<Option<Reply<L::Reply>>, NoMemory>
    ensures plays { IfOk result (λ reply. PlaysOn L.meaning machine.old seat act.now reply machine.new) }
    ensures same { OnErr result (state_in machine.new ≡ state_in machine.old) }
    ensures memory { OnErr result (WantsMemory (state_in machine.old) seat act.now) }
    ensures slots { slots_in machine.new ≡ slots_in machine.old }
{
    Ok(match *act {
        Act::Claim { slot, .. } => claim::<L>(machine, seat, slot),
        Act::Look { key, .. } => Some(Reply::ToLook(machine.holder(key))),
        Act::Hold { id, key, way } => hold::<L>(machine, seat, id, key, way)?,
        Act::Start { id, init, .. } => start::<L>(machine, seat, id, init),
        Act::Step { id, way, arg, .. } => step::<L>(machine, id, way, arg),
        Act::Kill { id, why } => kill::<L>(machine, seat, id, why),
        Act::Unhold { id, way } => unhold::<L>(machine, id, way),
        Act::Free { id } => free::<L>(machine, id),
    })
}

fn claim<L: Law>(
    machine: &mut PlainMachine<L::State>,
    seat: u64,
    slot: u32,
) -> Option<Reply<L::Reply>>
    ensures plays { (packet : ℕ) → PlaysOn L.meaning machine.old seat (Act.Claim packet slot) result machine.new }
    ensures slots { slots_in machine.new ≡ slots_in machine.old }
{
    match machine.last_inc(slot) {
        None => None,
        Some(last) => {
            let id = ConnId {
                slot,
                inc: last + 1,
            };
            machine.set_stage(id, Stage::Building { seat });
            Some(Reply::ToClaim(id))
        }
    }
}

fn hold<L: Law>(
    machine: &mut PlainMachine<L::State>,
    seat: u64,
    id: ConnId,
    key: Key,
    way: Way,
) -> Result<Option<Reply<L::Reply>>, NoMemory>
    ensures plays { IfOk result (λ reply. PlaysOn L.meaning machine.old seat (Act.Hold id key way) reply machine.new) }
    ensures same { OnErr result (state_in machine.new ≡ state_in machine.old) }
    ensures memory { OnErr result (MayGive (state_in machine.old) seat id key way) }
    ensures slots { slots_in machine.new ≡ slots_in machine.old }
{
    let found = Found { id, way };
    if !machine.is_building(id, seat) || machine.holds(found) {
        return Ok(None);
    }
    if let Some(holder) = machine.holder(key) {
        return Ok(Some(Reply::ToHold(Held::Taken(holder))));
    }
    machine.give(key, found)?;
    Ok(Some(Reply::ToHold(Held::Done)))
}

fn start<L: Law>(
    machine: &mut PlainMachine<L::State>,
    seat: u64,
    id: ConnId,
    init: L::State,
) -> Option<Reply<L::Reply>>
    ensures plays { (packet : ℕ) → PlaysOn L.meaning machine.old seat (Act.Start id packet init) result machine.new }
    ensures slots { slots_in machine.new ≡ slots_in machine.old }
{
    if !machine.is_building(id, seat) {
        return None;
    }
    machine.set_stage(
        id,
        Stage::Live {
            flow: init,
            steps: 1,
        },
    );
    Some(Reply::Nothing)
}

fn step<L: Law>(
    machine: &mut PlainMachine<L::State>,
    id: ConnId,
    way: Way,
    arg: L::Arg,
) -> Option<Reply<L::Reply>>
    ensures plays { (seat packet : ℕ) → PlaysOn L.meaning machine.old seat (Act.Step packet id way arg) result machine.new }
    ensures slots { slots_in machine.new ≡ slots_in machine.old }
{
    match machine.stage(id) {
        Stage::Vacant => None,
        Stage::Building { .. } | Stage::Dead => Some(Reply::ToStep(Stepped::NotLive)),
        Stage::Live { flow, steps } => {
            let (flow, reply) = L::step(&flow, way, &arg);
            let next = Stage::Live {
                flow,
                steps: steps.saturating_add(1),
            };
            machine.set_stage(id, next);
            Some(Reply::ToStep(Stepped::Done {
                reply,
                place: steps,
            }))
        }
    }
}

fn kill<L: Law>(
    machine: &mut PlainMachine<L::State>,
    seat: u64,
    id: ConnId,
    why: Why,
) -> Option<Reply<L::Reply>>
    ensures plays { PlaysOn L.meaning machine.old seat (Act.Kill id why) result machine.new }
    ensures slots { slots_in machine.new ≡ slots_in machine.old }
{
    let may_kill = match why {
        Why::Abandoned => machine.is_building(id, seat),
        Why::Expired(now) => is_due::<L>(machine, id, now),
    };
    if !may_kill {
        return None;
    }
    machine.set_stage(id, Stage::Dead);
    Some(Reply::Nothing)
}

fn is_due<L: Law>(machine: &PlainMachine<L::State>, id: ConnId, now: u64) -> bool
    ensures { IsTrue result ↔ IsDue L.meaning now (stage_of (state_in machine.now) id) }
{
    match machine.stage(id) {
        Stage::Live { flow, .. } => L::due(&flow, now),
        _ => false,
    }
}

fn unhold<L: Law>(
    machine: &mut PlainMachine<L::State>,
    id: ConnId,
    way: Way,
) -> Option<Reply<L::Reply>>
    ensures plays { (seat : ℕ) → PlaysOn L.meaning machine.old seat (Act.Unhold id way) result machine.new }
    ensures slots { slots_in machine.new ≡ slots_in machine.old }
{
    let found = Found { id, way };
    if !machine.is_dead(id) || !machine.holds(found) {
        return None;
    }
    machine.take_back(found);
    Some(Reply::Nothing)
}

fn free<L: Law>(machine: &mut PlainMachine<L::State>, id: ConnId) -> Option<Reply<L::Reply>>
    ensures plays { (seat : ℕ) → PlaysOn L.meaning machine.old seat (Act.Free id) result machine.new }
    ensures slots { slots_in machine.new ≡ slots_in machine.old }
{
    if !machine.is_dead(id) || machine.holds_any(id) || id.inc == u64::MAX {
        return None;
    }
    machine.set_stage(id, Stage::Vacant);
    Some(Reply::Nothing)
}
