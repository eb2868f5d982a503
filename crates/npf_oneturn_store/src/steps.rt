// Steps of flows, and connections that are due. `due` answers for one slot, so that who expires goes over the slots once.
ghost use Rattle.npf_oneturn_store.specs.Store.{AdvancesFlow, AnswersStep, IsLivePhase, TellsDue};

use crate::connection::Connection;
use crate::phase::SlotPhase;
use crate::store::Store;
use npf_core::{ConnId, Law, Stepped};
use npf_types::Way;

/// The next step of a connection's flow, by a packet of that way. Done, with the law's answer and the number of the steps before
/// this one, where the connection is Live; NotLive, with nothing changed, exactly where it isn't.
#[inline(always)]
pub fn step<L: Law>(
    store: &mut Store<L::State>,
    id: ConnId,
    way: Way,
    arg: &L::Arg,
) -> Stepped<L::Reply>
    ensures { AnswersStep L.meaning store.old store.new id way arg.now result }
{
    if !store.is_live(id) {
        return Stepped::NotLive;
    }
    let (reply, place) = advance::<L>(&mut store.connections[id.slot as usize], way, arg);
    Stepped::Done { reply, place }
}

// The next step of a Live connection, in place: the law's answer, and the number of the steps before this one.
#[inline(always)]
fn advance<L: Law>(connection: &mut Connection<L::State>, way: Way, arg: &L::Arg) -> (L::Reply, u64)
    requires { IsLivePhase connection.old.phase }
    ensures { AdvancesFlow L.meaning connection.old connection.new way arg.now result.0 result.1 }
{
    match &mut connection.phase {
        SlotPhase::Live { flow, steps } => {
            let place = *steps;
            let reply = L::advance(flow, way, arg);
            *steps = place.saturating_add(1);
            (reply, place)
        }
        SlotPhase::Vacant | SlotPhase::Building | SlotPhase::Dead => unreachable!(),
    }
}

/// The slot's connection, if it is Live and due at that time. A pass over the slots in order finds each that is due.
pub fn due<L: Law>(store: &Store<L::State>, slot: u32, now: u64) -> Option<ConnId>
    ensures { TellsDue L.meaning store.now slot now result }
{
    match store.connection(slot) {
        Some(
            Connection {
                inc,
                phase: SlotPhase::Live { flow, .. },
            },
        ) if L::due(flow, now) => Some(ConnId { slot, inc: *inc }),
        _ => None,
    }
}
