// What a procedure does to a packet.
use crate::name::Name;

/// What a procedure of npf.conf(5) does to a packet: `min-ttl`, `max-mss` and `no-df` of its normalisation, and the
/// interface that it logs to.
#[derive(Clone, Copy, Debug, PartialEq, Eq, PartialOrd, Ord, Hash)]
pub struct Action {
    pub min_ttl: Option<u8>,
    pub max_mss: Option<u16>,
    pub no_df: bool,
    pub log: Option<Name>,
}
