// What a history is made of. It is a list with the oldest entry first.
use crate::act::Act;
use crate::reply::Reply;

/// An entry of a history: an act, the number of the seat that asked for it, and what it was answered.
#[derive(Debug, PartialEq, Eq, Drop)]
pub struct Entry<S, A, R> {
    pub seat: u64,
    pub act: Act<S, A>,
    pub reply: Reply<R>,
}
