// Procedures, which rules call.
use npf_types::{Name, Text};

/// What a rule may have done to the packets that it passes (npf.conf(5), "Procedures"): `min-ttl`, `max-mss` and `no-df` of
/// its normalisation, and the interface that it logs to.
#[derive(Debug, Drop)]
pub struct Procedure {
    pub name: Text,
    pub min_ttl: Option<u8>,
    pub max_mss: Option<u16>,
    pub no_df: bool,
    pub log: Option<Name>,
}
