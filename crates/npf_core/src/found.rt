// Who holds a key.
use crate::conn_id::ConnId;
use npf_types::Way;

/// A key's holder: the connection, and which of its keys this one is.
#[derive(Clone, Copy, Debug, PartialEq, Eq, PartialOrd, Ord, Hash)]
pub struct Found {
    pub id: ConnId,
    pub way: Way,
}
