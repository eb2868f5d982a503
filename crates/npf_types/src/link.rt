// Link types of captures.

/// The link layer of a capture: Ethernet II, or IP with no link header (LINKTYPE_ETHERNET and LINKTYPE_RAW).
#[derive(Clone, Copy, Debug, PartialEq, Eq, PartialOrd, Ord, Hash)]
pub enum Link {
    Ethernet,
    Raw,
}
