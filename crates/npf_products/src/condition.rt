// What a rule or a map asks of one number of a packet.
ghost use Rattle.std.specs.Prelude.{◌<◌};

/// The place where a packet passes: its interface's number, and above it the direction.
pub(crate) const PLACE: usize = 0;
/// The source address.
pub(crate) const SOURCE: usize = 1;
/// The destination address.
pub(crate) const DESTINATION: usize = 2;
/// The source port, the type of a message, or the protocol of what isn't looked into.
pub(crate) const FIRST: usize = 3;
/// The destination port, or the code of a message.
pub(crate) const SECOND: usize = 4;
/// The control bits of a segment.
pub(crate) const CONTROL: usize = 5;

/// The number in one dimension lies in one of the ranges, whose ends belong to them, or in one of the tables; or it lies in none of them,
/// where these are excluded.
#[derive(Drop)]
pub(crate) struct Condition {
    pub(crate) dimension: usize,
    pub(crate) excluded: bool,
    pub(crate) ranges: Vec<(u128, u128)>,
    pub(crate) tables: Vec<usize>,
    ghost known: { dimension < 6 },
}
