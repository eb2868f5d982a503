// The machine as a plain value, for tests: a look-up walks its list of keys, so it isn't meant for many connections.
ghost use Rattle.std.specs.Prelude.{◌≡◌, ℕ, ◌<◌, ◌-◌, ◌^◌, ◌↔◌, length, slice_get, IsTrue, IfOk, IfSome, IfNone, OnOk, OnErr};
ghost use Rattle.npf_core.specs.Hold.{is_each_once};
ghost use Rattle.npf_core.specs.Slot.{NextIncarnationsFit};

use crate::conn_id::ConnId;
use crate::found::Found;
use crate::hold::{Holding, drop_held, holder_in, is_held, is_held_by};
use crate::slot::Slot;
use crate::stage::Stage;
use npf_types::{Key, NoMemory, Way};
use std::alloc::Global;

/// The machine's state as a plain value: its slots, and the keys that are held, each once.
#[derive(Drop)]
pub struct PlainMachine<S> {
    slots: Vec<Slot<S>>,
    holdings: Vec<Holding>,
    pub ghost further: { NextIncarnationsFit slots.items },
    pub ghost each_once: { IsTrue (is_each_once holdings.items) },
}

impl<S: Copy> PlainMachine<S> {
    ghost use Rattle.npf_core.specs.Allowed.{MayClaim};
    ghost use Rattle.npf_core.specs.Machine.{opening, stage_of, HoldsSome};
    ghost use Rattle.npf_types.specs.declared.key.Way.{Way};
    ghost use Rattle.npf_core.specs.PlainMachine.{state_in, slots_in, at_stage, given, taken_back, MayClaimNext};

    /// A machine in the opening state.
    pub fn new(alloc: Global, slots: u32) -> Result<Self, NoMemory>
        ensures state { IfOk result (λ machine. state_in machine ≡ opening) }
        ensures slots { IfOk result (λ machine. slots_in machine ≡ slots) }
    {
        let vacant = Slot {
            inc: 0,
            stage: Stage::Vacant,
        };
        Ok(PlainMachine {
            slots: vec![in alloc; vacant; slots as usize]?,
            holdings: Vec::new(alloc),
        })
    }

    /// The identity's stage.
    pub(crate) fn stage(&self, id: ConnId) -> Stage<S>
        ensures { result ≡ stage_of (state_in self.now) id }
    {
        match self.slots.get(id.slot as usize) {
            Some(slot) if slot.inc == id.inc => slot.stage,
            _ => Stage::Vacant,
        }
    }

    /// Whether the connection is Building under the seat.
    pub(crate) fn is_building(&self, id: ConnId, seat: u64) -> bool
        ensures { IsTrue result ↔ (stage_of (state_in self.now) id ≡ Stage.Building seat) }
    {
        matches!(self.stage(id), Stage::Building { seat: by } if by == seat)
    }

    /// Whether the connection is Dead.
    pub(crate) fn is_dead(&self, id: ConnId) -> bool
        ensures { IsTrue result ↔ (stage_of (state_in self.now) id ≡ Stage.Dead) }
    {
        matches!(self.stage(id), Stage::Dead)
    }

    /// The incarnation that the slot had last, if there is such a slot and it isn't claimed.
    pub(crate) fn last_inc(&self, slot: u32) -> Option<u64>
        ensures some { IfSome result (λ inc. MayClaimNext (slots_in self.now) (state_in self.now) slot inc) }
        ensures none { IfNone result (¬ MayClaim (slots_in self.now) (state_in self.now) slot) }
    {
        match self.slots.get(slot as usize) {
            Some(
                Slot {
                    inc,
                    stage: Stage::Vacant,
                },
            ) => Some(*inc),
            _ => None,
        }
    }

    /// The key's holder.
    pub(crate) fn holder(&self, key: Key) -> Option<Found>
        ensures { result ≡ (state_in self.now).holder key }
    {
        holder_in(&self.holdings, key)
    }

    /// Whether the key of that way is held.
    pub(crate) fn holds(&self, found: Found) -> bool
        ensures { IsTrue result ↔ HoldsSome (state_in self.now) found.id found.way }
    {
        is_held(&self.holdings, found)
    }

    /// Whether the connection holds a key.
    pub(crate) fn holds_any(&self, id: ConnId) -> bool
        ensures { IsTrue result ↔ ((way : Way) × HoldsSome (state_in self.now) id way) }
    {
        is_held_by(&self.holdings, id)
    }

    /// Sets the slot of the identity to its incarnation at this stage.
    pub(crate) fn set_stage(&mut self, id: ConnId, stage: Stage<S>)
        requires within { id.slot < slots_in self.old }
        requires further { stage ≡ Stage.Vacant → id.inc < 2 ^ 64 - 1 }
        ensures state { state_in self.new ≡ at_stage (state_in self.old) id stage }
        ensures slots { slots_in self.new ≡ slots_in self.old }
    {
        self.slots[id.slot as usize] = Slot { inc: id.inc, stage };
    }

    /// Gives a key that has no holder to this one. Without memory nothing changes.
    pub(crate) fn give(&mut self, key: Key, found: Found) -> Result<(), NoMemory>
        requires { (state_in self.old).holder key ≡ None }
        ensures state { OnOk result (state_in self.new ≡ given (state_in self.old) key found) }
        ensures same { OnErr result (state_in self.new ≡ state_in self.old) }
        ensures slots { slots_in self.new ≡ slots_in self.old }
    {
        self.holdings.push(Holding { key, found })?;
        Ok(())
    }

    /// Takes back the key that is held so.
    pub(crate) fn take_back(&mut self, found: Found)
        ensures state { state_in self.new ≡ taken_back (state_in self.old) found }
        ensures slots { slots_in self.new ≡ slots_in self.old }
    {
        drop_held(&mut self.holdings, found);
    }
}
