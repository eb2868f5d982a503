// Connections by slot and by key.
//
// A connection has one place for the key of each way, so no place can be wanting, and no call but `new` takes memory; hence a hold asks that
// the connection holds no key of that way. A slot and its three places are written when it is first claimed, so that a run pays for the slots
// that it uses. A claim goes up from a hint below which each slot is claimed: between two frees it passes each slot once at most.
ghost use Rattle.std.specs.Prelude.{◌≡◌, ◌≢◌, ◌<◌, ◌≤◌, ◌*◌, ◌-◌, ◌^◌, ◌↔◌, length, vec_len, vec_capacity, IsTrue, IfOk, IfSome, IfNone};
ghost use Rattle.npf_oneturn_store.specs.Connection.{AreFit, HoldersStand};

use crate::connection::Connection;
use crate::held_keys::HeldKeys;
use crate::keys::Keys;
use crate::phase::SlotPhase;
use npf_core::{ConnId, Found, Held, Kept};
use npf_types::{Key, NoMemory, Way};
use std::alloc::Global;

/// The connections of a run, by slot and by key.
#[derive(Drop)]
pub struct Store<S> {
    slots: u32,
    // The last connection of each slot. Those past the last slot that was ever claimed aren't written yet, but have their room.
    pub(crate) connections: Vec<Connection<S>>,
    // Each slot below this one is claimed.
    first: u32,
    keys: Keys,
    pub ghost few: { vec_len connections ≤ slots },
    pub ghost reserved: { slots ≤ vec_capacity connections },
    pub ghost reserved_keys: { 3 * slots ≤ vec_capacity keys.holdings },
    pub ghost roomy: { length keys.holdings.items ≡ 3 * vec_len connections },
    pub ghost fit: { AreFit first connections.items },
    pub ghost stand: { HoldersStand connections.items keys.holdings.items },
}

impl<S: Copy> Store<S> {
    ghost use Rattle.npf_types.specs.declared.key.Way.{Way};
    ghost use Rattle.npf_core.specs.declared.conn_id.ConnId.{ConnId};
    ghost use Rattle.npf_oneturn_store.specs.Store.{slots_of, slot_of, holder_of, phase_of, HoldsNoKey, TellsKey, TellsKeys, TellsKept, TellsDead, IsNew, AnswersClaim, IsLowest, IsFull, AnswersHold, StaysBare, Starts, IsAlivePhase, IsLivePhase, Kills, Unholds, Frees, Puts, IsSame};

    /// A store of so many slots of which none is claimed. All the memory that it ever has is taken here.
    pub fn new(alloc: Global, slots: u32) -> Result<Store<S>, NoMemory>
        ensures { IfOk result (λ store. IsNew slots store) }
    {
        Ok(Store {
            slots,
            connections: Vec::with_capacity(alloc, slots as usize)?,
            first: 0,
            keys: Keys::new(alloc, slots)?,
        })
    }

    /// How many slots it has.
    pub fn slots(&self) -> u32
        ensures { result ≡ slots_of self.now }
    {
        self.slots
    }

    /// The key's holder, in whatever phase it is; None where it has none.
    #[inline(always)]
    pub fn holder(&self, key: Key) -> Option<Found>
        ensures { result ≡ holder_of self.now key }
    {
        self.keys.find(key)
    }

    /// The identity's phase.
    pub fn phase(&self, id: ConnId) -> SlotPhase<S>
        ensures { result ≡ phase_of self.now id }
    {
        match self.connections.get(id.slot as usize) {
            Some(connection) if connection.inc == id.inc => connection.phase,
            _ => SlotPhase::Vacant,
        }
    }

    #[inline(always)]
    pub(crate) fn is_live(&self, id: ConnId) -> bool
        ensures { IsTrue result ↔ IsLivePhase (phase_of self.now id) }
    {
        match self.connections.get(id.slot as usize) {
            Some(connection) => {
                connection.inc == id.inc && matches!(connection.phase, SlotPhase::Live { .. })
            }
            None => false,
        }
    }

    fn is_vacant(&self, slot: u32) -> bool
        ensures { IsTrue result ↔ ((slot_of self.now slot).phase ≡ SlotPhase.Vacant) }
    {
        match self.connections.get(slot as usize) {
            Some(connection) => matches!(connection.phase, SlotPhase::Vacant),
            None => true,
        }
    }

    // The lowest slot that isn't claimed.
    fn lowest(&self) -> Option<u32>
        ensures some { IfSome result (IsLowest self.now) }
        ensures none { IfNone result (IsFull self.now) }
    {
        for slot in self.first..self.slots {
            if self.is_vacant(slot) {
                return Some(slot);
            }
        }
        None
    }

    /// The next connection of the lowest slot that isn't claimed, which is Building from now on and holds no key. None exactly
    /// where each slot is claimed.
    pub fn claim(&mut self) -> Option<ConnId>
        ensures { AnswersClaim self.old self.new result }
    {
        let Some(slot) = self.lowest() else {
            return None;
        };
        self.reach(slot);
        let inc = self.connections[slot as usize].inc + 1;
        self.connections[slot as usize] = Connection {
            inc,
            phase: SlotPhase::Building,
        };
        self.first = slot + 1;
        Some(ConnId { slot, inc })
    }

    // Has the slot written, if it is the one behind those that are. It stays as it was: never claimed, without a key.
    fn reach(&mut self, slot: u32)
        requires exists { slot < self.old.slots }
        requires next { slot ≤ vec_len self.old.connections }
        ensures written { slot < vec_len self.new.connections }
        ensures same { IsSame self.old self.new }
    {
        if slot as usize == self.connections.len() {
            self.connections.push_reserved(Connection {
                inc: 0,
                phase: SlotPhase::Vacant,
            });
            self.keys.add_slot();
        }
    }

    /// Gives the connection the key, as its key of that way. Done, or Taken, with nothing changed, exactly where the key has a
    /// holder.
    pub fn hold(&mut self, id: ConnId, key: Key, way: Way) -> Held
        requires claimed { phase_of self.old id ≢ SlotPhase.Vacant }
        requires none { HoldsNoKey self.old id way }
        ensures answer { AnswersHold self.old self.new key (record { id = id; way = way }) result }
        ensures bare { StaysBare self.old self.new id way result }
    {
        let bucket = self.keys.bucket(key);
        if let Some(holder) = self.keys.search(bucket, key) {
            return Held::Taken(holder);
        }
        self.keys.give(bucket, key, Found { id, way });
        Held::Done
    }

    /// A connection that was Building is Live from now on, with this flow. The start counts as its first step.
    pub fn start(&mut self, id: ConnId, init: S)
        requires { phase_of self.old id ≡ SlotPhase.Building }
        ensures { Starts self.old self.new id init }
    {
        let live = SlotPhase::Live {
            flow: init,
            steps: 1,
        };
        self.put(id, live);
    }

    /// A connection that was Building or Live is Dead from now on. It holds its keys until they are taken back.
    pub fn kill(&mut self, id: ConnId)
        requires { IsAlivePhase (phase_of self.old id) }
        ensures { Kills self.old self.new id }
    {
        self.put(id, SlotPhase::Dead);
    }

    /// The key that the connection holds that way; None where it holds none.
    pub fn held(&self, id: ConnId, way: Way) -> Option<Key>
        ensures { TellsKey self.now id way result }
    {
        self.keys.held(Found { id, way })
    }

    /// The keys that the connection holds.
    pub fn keys_held(&self, id: ConnId) -> HeldKeys
        ensures { TellsKeys self.now id result }
    {
        HeldKeys {
            forward: self.held(id, Way::Forward),
            backward: self.held(id, Way::Backward),
            port: self.held(id, Way::Port),
        }
    }

    /// A copy of the slot's connection with the keys that it holds, if it is Live.
    pub fn kept(&self, slot: u32) -> Option<Kept<S>>
        ensures { TellsKept self.now slot result }
    {
        match self.connection(slot) {
            Some(
                Connection {
                    inc,
                    phase: SlotPhase::Live { flow, .. },
                },
            ) => {
                let id = ConnId { slot, inc: *inc };
                let keys = self.keys_held(id);
                Some(Kept {
                    id,
                    forward: keys.forward,
                    port: keys.port,
                    backward: keys.backward,
                    state: *flow,
                })
            }
            _ => None,
        }
    }

    /// Takes back the key that the connection holds that way, if it holds one: it has no holder from now on.
    pub fn unhold(&mut self, id: ConnId, way: Way)
        ensures taken { Unholds self.old self.new (record { id = id; way = way }) }
        ensures gone { HoldsNoKey self.new id way }
        ensures bare { (other : ConnId) (way : Way) → HoldsNoKey self.old other way → HoldsNoKey self.new other way }
    {
        self.keys.take_back(Found { id, way });
    }

    /// The slot's connection, if it is Dead.
    pub fn dead(&self, slot: u32) -> Option<ConnId>
        ensures { TellsDead self.now slot result }
    {
        match self.connections.get(slot as usize) {
            Some(
                Connection {
                    inc,
                    phase: SlotPhase::Dead,
                },
            ) => Some(ConnId { slot, inc: *inc }),
            _ => None,
        }
    }

    /// The slot of a Dead connection without keys isn't claimed from now on. Its next connection has the next incarnation, so
    /// that of the last possible one can't be freed.
    pub fn free(&mut self, id: ConnId)
        requires killed { phase_of self.old id ≡ SlotPhase.Dead }
        requires none { (way : Way) → HoldsNoKey self.old id way }
        requires further { id.inc < 2 ^ 64 - 1 }
        ensures { Frees self.old self.new id }
    {
        self.connections[id.slot as usize] = Connection {
            inc: id.inc,
            phase: SlotPhase::Vacant,
        };
        self.first = self.first.min(id.slot);
    }

    // The slot's last connection. A slot without one isn't claimed.
    pub(crate) fn connection(&self, slot: u32) -> Option<&Connection<S>>
        ensures some { IfSome result (λ connection. slot_of self.now slot ≡ connection.now) }
        ensures none { IfNone result ((slot_of self.now slot).phase ≡ SlotPhase.Vacant) }
    {
        self.connections.get(slot as usize)
    }

    // Puts a claimed connection at a phase.
    pub(crate) fn put(&mut self, id: ConnId, phase: SlotPhase<S>)
        requires claimed { phase_of self.old id ≢ SlotPhase.Vacant }
        requires stays { phase ≢ SlotPhase.Vacant }
        ensures { Puts self.old self.new id phase }
    {
        self.connections[id.slot as usize] = Connection { inc: id.inc, phase };
    }
}
