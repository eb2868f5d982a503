// What a step of a connection came to.

/// What a step of a connection is answered.
#[derive(Debug, PartialEq, Eq, Drop)]
pub enum Stepped<R> {
    /// The law's answer, and the number of the connection's steps before this one. Its start is number 0.
    Done { reply: R, place: u64 },
    /// The connection wasn't Live.
    NotLive,
}
