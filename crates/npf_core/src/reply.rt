// What the machine answers.
use crate::conn_id::ConnId;
use crate::found::Found;
use crate::held::Held;
use crate::stepped::Stepped;

/// What the machine answers to an act.
#[derive(Debug, PartialEq, Eq, Drop)]
pub enum Reply<R> {
    /// To a start, a kill, an unhold and a free.
    Nothing,
    /// The identity that was claimed.
    ToClaim(ConnId),
    /// The key's holder, in whatever phase it is.
    ToLook(Option<Found>),
    /// `Done` or `Taken`: the machine always has room for a key.
    ToHold(Held),
    ToStep(Stepped<R>),
}
